// The job of a skim: its network, and a table of link times.
ghost use Rattle.std.specs.Prelude.{◌≡◌, IfOk, IfErr, OnOk};
ghost use Rattle.dta_words.specs.Ranges.{AreSettings};
ghost use Rattle.jobs.specs.Calls.{OnlyReads};
ghost use Rattle.jobs.specs.TableRows.{TableRows, net_of};
ghost use Rattle.jobs.specs.Limits.{skim_limits};
ghost use Rattle.jobs.specs.Inputs.{Skimming, kind_of};
ghost use Rattle.jobs.specs.Jobs.{IsJob, IsJobOf};
ghost use Rattle.jobs.specs.Stops.{Stops, StopsPast};
ghost use Rattle.jobs.specs.Kinds.{IsFor, rows_in_job};

use crate::job::Job;
use crate::limits::sizes;
use crate::stop::Stop;
use crate::tables::{accept_network, accept_times};
use desk_io::Desk;
use dta_words::Settings;
use gmns_tables::join_net;
use net_core::Net;
use reports::{MOST_SKIM_ENTRIES, Refusal};
use skims::TimeRows;
use std::alloc::Global;

/// The network of a skim, and its link times.
#[derive(Drop)]
pub struct SkimJob {
    /// The network.
    pub net: Net,
    /// The rows of the table of link times.
    pub times: TimeRows,
}

// Checks the sizes of a skim: the links times the steps, and then the entries, one for each
// ordered pair of different zones and each start.
fn skim_sizes(net: &Net, settings: &Settings) -> Result<(), Stop>
    requires settings { AreSettings settings.now }
    ensures within { (rows : TableRows) → net_of rows ≡ net.now
        → OnOk result (skim_limits.within settings.now rows) }
    ensures stops { (rows : TableRows) → net_of rows ≡ net.now
        → IfErr result (StopsPast skim_limits settings.now rows) }
{
    let links = net.link_count();
    let steps = settings.horizon;
    if sizes(links, steps).is_err() {
        return Err(Stop::Refused(Refusal::Cells { links, steps }));
    }
    let zones = u64::from(net.zone_count());
    let starts = settings.starts.as_slice().len() as u64;
    let entries = zones * zones.saturating_sub(1) * starts;
    if entries > MOST_SKIM_ENTRIES {
        let number = u128::from(entries);
        return Err(Stop::Refused(Refusal::SkimPairs { number }));
    }
    Ok(())
}

/// Reads and checks the tables of a skim, and makes its job.
pub(crate) fn accept_skim<D: Desk>(
    alloc: Global,
    desk: &mut D,
    settings: &Settings,
) -> Result<Job, Stop>
    requires settings { AreSettings settings.now }
    requires kind { kind_of settings.now.command ≡ Skimming }
    ensures reads { OnlyReads (λ job. IsJobOf settings.now (rows_in_job job))
        (Stops settings.now) (D.state desk.old) (D.state desk.new) result }
    ensures sound { IfOk result (λ job. IsJob settings.now (rows_in_job job)) }
    ensures own { IfOk result (IsFor settings.now.command) }
{
    let network = accept_network(alloc, desk, settings)?;
    let net = join_net(
        alloc,
        network.roads.nodes,
        network.roads.links,
        network.turns,
    )?;
    let times = accept_times(alloc, desk, settings, &net)?;
    skim_sizes(&net, settings)?;
    Ok(Job::Skim(SkimJob { net, times }))
}
