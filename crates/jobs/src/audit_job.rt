// The job of an audit: its network and its trips, and the two tables that are audited.
ghost use Rattle.std.specs.Prelude.{◌≡◌, IfOk};
ghost use Rattle.dta_words.specs.Ranges.{AreSettings};
ghost use Rattle.jobs.specs.Calls.{OnlyReads};
ghost use Rattle.jobs.specs.Inputs.{Auditing, kind_of};
ghost use Rattle.jobs.specs.Jobs.{IsJob, IsJobOf};
ghost use Rattle.jobs.specs.Stops.{Stops};
ghost use Rattle.jobs.specs.Kinds.{IsFor, rows_in_job};

use crate::assign_job::trips_within;
use crate::job::Job;
use crate::stop::Stop;
use crate::tables::{NetworkTables, Tables, accept_agents, accept_all, accept_times};
use agent_table::AgentRows;
use desk_io::Desk;
use dta_model::Trip;
use dta_words::Settings;
use gmns_tables::join_net;
use net_core::Net;
use skims::TimeRows;
use std::alloc::Global;

/// The network of an audit, its trips, and the agents and link times that are audited.
#[derive(Drop)]
pub struct AuditJob {
    /// The network.
    pub net: Net,
    /// The trips.
    pub trips: Vec<Trip>,
    /// The rows of the table of link times.
    pub times: TimeRows,
    /// The agents.
    pub agents: AgentRows,
}

/// Reads and checks all tables of an audit, and makes its job.
pub(crate) fn accept_audit<D: Desk>(
    alloc: Global,
    desk: &mut D,
    settings: &Settings,
) -> Result<Job, Stop>
    requires settings { AreSettings settings.now }
    requires kind { kind_of settings.now.command ≡ Auditing }
    ensures reads { OnlyReads (λ job. IsJobOf settings.now (rows_in_job job))
        (Stops settings.now) (D.state desk.old) (D.state desk.new) result }
    ensures sound { IfOk result (λ job. IsJob settings.now (rows_in_job job)) }
    ensures own { IfOk result (IsFor settings.now.command) }
{
    let tables = accept_all(alloc, desk, settings)?;
    let agents = accept_agents(alloc, desk)?;
    let Tables {
        network,
        demand_cells,
    } = tables;
    let NetworkTables { roads, turns } = network;
    let net = join_net(alloc, roads.nodes, roads.links, turns)?;
    let times = accept_times(alloc, desk, settings, &net)?;
    let trips = trips_within(alloc, net.link_count(), &demand_cells, settings)?;
    Ok(Job::Audit(AuditJob {
        net,
        trips,
        times,
        agents,
    }))
}
