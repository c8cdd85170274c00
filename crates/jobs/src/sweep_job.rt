// The job of a sweep: its network, and the demand that it multiplies.
ghost use Rattle.std.specs.Prelude.{◌≡◌, length, IfOk, IfErr, OnOk};
ghost use Rattle.demand.specs.DemandRows.{AreDemandCells};
ghost use Rattle.dta_words.specs.Ranges.{AreSettings};
ghost use Rattle.gmns_tables.specs.Net.{net_of as joined};
ghost use Rattle.net_core.specs.Network.{IsNet};
ghost use Rattle.jobs.specs.Calls.{OnlyReads, rows_in_tables};
ghost use Rattle.jobs.specs.TableRows.{TableRows};
ghost use Rattle.jobs.specs.Limits.{sweep_limits};
ghost use Rattle.jobs.specs.Inputs.{Sweeping, kind_of};
ghost use Rattle.jobs.specs.Jobs.{IsJob, IsJobOf, job_of as job_of_rows};
ghost use Rattle.jobs.specs.Stops.{Stops, StopsPast};
ghost use Rattle.jobs.specs.Kinds.{IsFor, rows_in_job};

use crate::job::Job;
use crate::stop::Stop;
use crate::tables::{NetworkTables, Tables, accept_all};
use desk_io::Desk;
use dta_model::DemandCell;
use dta_words::Settings;
use gmns_tables::join_net;
use net_core::Net;
use reports::{MOST_SWEEP_LINK_STEPS, Refusal};
use scaled_demand::check_scales;
use std::alloc::Global;

/// The network of a sweep, and its demand.
#[derive(Drop)]
pub struct SweepJob {
    /// The network.
    pub net: Net,
    /// The demand that each scale multiplies.
    pub demand_cells: Vec<DemandCell>,
}

// Checks the sizes of a sweep: the links times the steps, and then the vehicles of each scenario.
fn sweep_sizes(links: u32, demand_cells: &[DemandCell], settings: &Settings) -> Result<(), Stop>
    requires settings { AreSettings settings.now }
    requires kind { kind_of settings.now.command ≡ Sweeping }
    requires demand_cells { AreDemandCells settings.now.period demand_cells.now }
    ensures within { (rows : TableRows)
        → length rows.links ≡ links → rows.demand_cells ≡ demand_cells.now
        → OnOk result (sweep_limits.within settings.now rows) }
    ensures stops { (rows : TableRows)
        → length rows.links ≡ links → rows.demand_cells ≡ demand_cells.now
        → IfErr result (StopsPast sweep_limits settings.now rows) }
{
    let steps = settings.horizon;
    if u64::from(links) * u64::from(steps) > MOST_SWEEP_LINK_STEPS {
        return Err(Stop::Refused(Refusal::SweepCells { links, steps }));
    }
    check_scales(demand_cells, settings.scales.as_slice())?;
    Ok(())
}

// The job of the accepted tables of a sweep. Its demand is released by scenario.
fn sweep_job_of(alloc: Global, tables: Tables, settings: &Settings) -> Result<Job, Stop>
    requires settings { AreSettings settings.now }
    requires kind { kind_of settings.now.command ≡ Sweeping }
    requires net { let network = tables.network in
        IsNet (joined network.roads.nodes network.roads.links network.turns) }
    requires demand_cells { AreDemandCells settings.now.period tables.demand_cells.items }
    ensures makes { IfOk result (λ job.
        rows_in_job job ≡ job_of_rows settings.now (rows_in_tables tables)) }
    ensures sound { IfOk result (λ job. IsJob settings.now (rows_in_job job)) }
    ensures own { IfOk result (IsFor settings.now.command) }
    ensures within { OnOk result (sweep_limits.within settings.now (rows_in_tables tables)) }
    ensures stops { IfErr result (StopsPast sweep_limits settings.now (rows_in_tables tables)) }
{
    let Tables {
        network,
        demand_cells,
    } = tables;
    let NetworkTables { roads, turns } = network;
    let links = roads.links.as_slice().len() as u32;
    sweep_sizes(links, &demand_cells, settings)?;
    let net = join_net(alloc, roads.nodes, roads.links, turns)?;
    Ok(Job::Sweep(SweepJob { net, demand_cells }))
}

/// Reads and checks all tables of a sweep, and makes its job.
pub(crate) fn accept_sweep<D: Desk>(
    alloc: Global,
    desk: &mut D,
    settings: &Settings,
) -> Result<Job, Stop>
    requires settings { AreSettings settings.now }
    requires kind { kind_of settings.now.command ≡ Sweeping }
    ensures reads { OnlyReads (λ job. IsJobOf settings.now (rows_in_job job))
        (Stops settings.now) (D.state desk.old) (D.state desk.new) result }
    ensures sound { IfOk result (λ job. IsJob settings.now (rows_in_job job)) }
    ensures own { IfOk result (IsFor settings.now.command) }
{
    let tables = accept_all(alloc, desk, settings)?;
    sweep_job_of(alloc, tables, settings)
}
