// The job of an assignment: its network, its trips, and the rows of its start table.
ghost use Rattle.std.specs.Prelude.{◌≡◌, ◌≤◌, ◌*◌, length, IfOk, IfErr, OnOk};
ghost use Rattle.demand.specs.DemandRows.{AreDemandCells};
ghost use Rattle.dta_model.specs.Release.{trips_of};
ghost use Rattle.dta_words.specs.Ranges.{AreSettings};
ghost use Rattle.dta_words.specs.declared.command.Command.TheVariants as command;
ghost use Rattle.gmns_tables.specs.Net.{net_of as joined};
ghost use Rattle.net_core.specs.Network.{IsNet};
ghost use Rattle.start_table.specs.Starts.{AreStartRows};
ghost use Rattle.dta_model.specs.declared.loading.TheConstants.{MOST_LINK_STEPS};
ghost use Rattle.vehicle_release.specs.Limits.{IsWithin};
ghost use Rattle.assignment.specs.Lent.{IsAssignment, settings_in, traffic_in};
ghost use Rattle.assignment.specs.Traffic.{AreTripsBelow};
ghost use Rattle.desk_io.specs.State.{DeskState};
ghost use Rattle.jobs.specs.Calls.{OnlyReads, rows_in_tables, with_start_rows};
ghost use Rattle.jobs.specs.TableRows.{TableRows};
ghost use Rattle.jobs.specs.Limits.{HasRoom, loading_limits};
ghost use Rattle.jobs.specs.Inputs.{Assigns};
ghost use Rattle.jobs.specs.Jobs.{IsJob, IsJobOf, job_of as job_of_rows, traffic_of};
ghost use Rattle.jobs.specs.Reading.{Reading};
ghost use Rattle.jobs.specs.Stops.{Stops, StopsPast};
ghost use Rattle.jobs.specs.Kinds.{IsFor, assign_rows, rows_in_job};

use crate::job::Job;
use crate::limits::sizes;
use crate::stop::Stop;
use crate::tables::{NetworkTables, Tables, accept_all, accept_start};
use assignment::Assignment;
use desk_io::{Desk, TallyDesk};
use dta_model::{DemandCell, Trip};
use dta_words::Settings;
use gmns_tables::join_net;
use grid_maker::{GridFault, grid};
use net_core::Net;
use reports::Refusal;
use start_table::StartRows;
use std::alloc::Global;
use vehicle_release::release;

/// The network of an assignment, its trips, and the rows of its start table.
#[derive(Drop)]
pub struct AssignJob {
    /// The network.
    pub net: Net,
    /// The trips.
    pub trips: Vec<Trip>,
    /// The rows of the start table, of which there are none where none is asked for.
    pub start: StartRows,
}

impl AssignJob {
    /// What is assigned of the job.
    pub fn assignment<'a>(&'a self, settings: &'a Settings) -> Assignment<'a>
        requires settings { AreSettings settings.now }
        requires job { IsJob settings.now (assign_rows self.now) }
        ensures settings { settings_in result ≡ settings.now }
        ensures traffic { traffic_in result ≡ traffic_of (assign_rows self.now) }
        ensures workers { result.workers ≡ settings.now.workers }
        ensures is { IsAssignment result }
    {
        Assignment {
            settings,
            net: &self.net,
            trips: self.trips.as_slice(),
            start: &self.start,
            workers: settings.workers,
        }
    }
}

/// The trips of a demand table over so many links, within the limits of a run.
pub(crate) fn trips_within(
    alloc: Global,
    links: u32,
    demand_cells: &[DemandCell],
    settings: &Settings,
) -> Result<Vec<Trip>, Stop>
    requires settings { AreSettings settings.now }
    requires demand_cells { AreDemandCells settings.now.period demand_cells.now }
    ensures trips { IfOk result (λ trips. trips.items ≡ trips_of demand_cells.now) }
    ensures sound { IfOk result (λ trips. AreTripsBelow settings.now.horizon trips.items) }
    ensures within { OnOk result (
        (links * settings.now.horizon ≤ MOST_LINK_STEPS) × IsWithin demand_cells.now) }
    ensures stops { (rows : TableRows)
        → length rows.links ≡ links → rows.demand_cells ≡ demand_cells.now
        → IfErr result (StopsPast loading_limits settings.now rows) }
{
    if sizes(links, settings.horizon).is_err() {
        return Err(Stop::Refused(Refusal::Cells {
            links,
            steps: settings.horizon,
        }));
    }
    Ok(release(alloc, demand_cells)?)
}

// The job of accepted tables.
fn assign_job_of(
    alloc: Global,
    tables: Tables,
    start: StartRows,
    settings: &Settings,
) -> Result<Job, Stop>
    requires settings { AreSettings settings.now }
    requires command { Assigns settings.now.command }
    requires net { let network = tables.network in
        IsNet (joined network.roads.nodes network.roads.links network.turns) }
    requires demand_cells { AreDemandCells settings.now.period tables.demand_cells.items }
    requires start { AreStartRows start }
    ensures makes { IfOk result (λ job.
        rows_in_job job
        ≡ job_of_rows settings.now (with_start_rows (rows_in_tables tables) start)) }
    ensures sound { IfOk result (λ job. IsJob settings.now (rows_in_job job)) }
    ensures own { IfOk result (IsFor settings.now.command) }
    ensures within { OnOk result (
        HasRoom settings.now (with_start_rows (rows_in_tables tables) start)
        × IsWithin tables.demand_cells.items) }
    ensures stops { IfErr result (
        StopsPast loading_limits settings.now (with_start_rows (rows_in_tables tables) start)) }
{
    let Tables {
        network,
        demand_cells,
    } = tables;
    let NetworkTables { roads, turns } = network;
    let links = roads.links.as_slice().len() as u32;
    let trips = trips_within(alloc, links, &demand_cells, settings)?;
    let net = join_net(alloc, roads.nodes, roads.links, turns)?;
    Ok(Job::Assign(AssignJob { net, trips, start }))
}

/// Reads and checks all tables of an assignment, the start table last where the settings ask for
/// it, and makes its job.
pub(crate) fn accept_tables<D: Desk>(
    alloc: Global,
    desk: &mut D,
    settings: &Settings,
) -> Result<Job, Stop>
    requires settings { AreSettings settings.now }
    requires command { Assigns settings.now.command }
    ensures reads { OnlyReads (λ job. IsJobOf settings.now (rows_in_job job))
        (Stops settings.now) (D.state desk.old) (D.state desk.new) result }
    ensures sound { IfOk result (λ job. IsJob settings.now (rows_in_job job)) }
    ensures own { IfOk result (IsFor settings.now.command) }
{
    let tables = accept_all(alloc, desk, settings)?;
    let start = if settings.start {
        accept_start(alloc, desk)?
    } else {
        StartRows::new(alloc)
    };
    assign_job_of(alloc, tables, start, settings)
}

/// Makes the tables of a demonstration, checks them as any others, and makes their job.
pub(crate) fn accept_grid(alloc: Global, settings: &Settings, n: u32) -> Result<Job, Stop>
    requires settings { AreSettings settings.now }
    requires command { settings.now.command ≡ command.Demo n }
    ensures reads { let reading = Reading settings.now.command in
        (desk : DeskState) → OnlyReads (λ job. reading (IsJobOf settings.now (rows_in_job job)))
        (λ stop. reading (Stops settings.now stop)) desk desk result }
    ensures sound { IfOk result (λ job. IsJob settings.now (rows_in_job job)) }
    ensures own { IfOk result (IsFor settings.now.command) }
{
    match grid(alloc, n) {
        Ok(texts) => {
            let mut made = TallyDesk::new(
                texts.node.into_vec(),
                texts.link.into_vec(),
                Vec::new(alloc),
                texts.demand.into_vec(),
            );
            accept_tables(alloc, &mut made, settings)
        }
        Err(GridFault::OutOfRange) => unreachable!(),
        Err(GridFault::Memory) => Err(Stop::Memory),
    }
}
