// An audit of the tables of an assignment.
ghost use Rattle.std.specs.Prelude.{◌≡◌, ◌++◌, ◌<◌, ◌≤◌, length, All, IfOk};
ghost use Rattle.std.specs.List.Sorted.{IsNonDecreasingBy};
ghost use Rattle.dta_model.specs.Lent.{plan_of};
ghost use Rattle.dta_model.specs.LinkTimes.{table_of};
ghost use Rattle.dta_model.specs.Loading.{journeys_of};
ghost use Rattle.dta_model.specs.Sound.{AreTrips, IsSound};
ghost use Rattle.skims.specs.GivenTimes.{AreRowsOf};
ghost use Rattle.audit.specs.Audit.{IsAudit, IsPlan, all_journey_checks, all_time_checks};
ghost use Rattle.audit.specs.Checks.{IsVerdict};

use crate::journey_checks::check_journeys;
use crate::plan::Plan;
use crate::time_checks::check_times;
use crate::trip_checks::check_trips;
use crate::verdict::Verdict;
use agent_table::{AgentRow, AgentRows};
use dta_model::{Loading, Routes, Trip};
use link_times::LinkTimes;
use net_core::{Memory, Net};
use serial_loader::load_plain;
use skims::{TimeRow, TimeRows};
use std::alloc::Global;

// The verdict of the rows of both tables against a loading over the routes of the agent table.
fn check_loading(
    alloc: Global,
    loading: &Loading,
    agents: &[AgentRow],
    times: &[TimeRow],
    bucket: u32,
) -> Result<Verdict, Memory>
    requires sound { IsSound (plan_of loading.now) }
    requires bucket { 1 ≤ bucket }
    requires agents { length agents.now ≡ length loading.now.trips.now }
    requires times { AreRowsOf loading.now.net.now bucket loading.now.horizon times.now }
    ensures { IfOk result (IsVerdict
        (all_journey_checks agents.now (journeys_of (plan_of loading.now))
        ++ all_time_checks (table_of (plan_of loading.now) bucket) times.now)) }
{
    let loaded = load_plain(alloc, loading)?;
    let journeys = check_journeys(agents, loaded.as_slice());
    match journeys {
        Verdict::Yes => {}
        Verdict::No { .. } => return Ok(journeys),
    }
    let table = LinkTimes::of(alloc, loading, &loaded, bucket)?;
    Ok(check_times(&table, loading.net.link_count(), times))
}

/// Audits the agent table and the table of link times of an assignment over a network, with these
/// trips and this plan. The first check that fails is told, by its table, line and column: the
/// rows of the agent table against the trips and the network, then against a loading over the
/// routes that they name, and then the rows of link times against that loading. Nothing is taken
/// from the tables but these routes.
pub fn audit(
    alloc: Global,
    net: &Net,
    trips: &[Trip],
    agents: &AgentRows,
    times: &TimeRows,
    plan: &Plan,
) -> Result<Verdict, Memory>
    requires trips { AreTrips trips.now }
    requires rising { IsNonDecreasingBy (λ trip. trip.departure) trips.now }
    requires early { All (λ trip. trip.departure < plan.now.horizon) trips.now }
    requires times { AreRowsOf net.now plan.now.bucket plan.now.horizon times.now }
    requires plan { IsPlan plan.now }
    ensures { IfOk result (IsAudit net.now trips.now agents.now times.now plan.now) }
{
    // That the network is sound is known where its links are counted.
    let _sound = net.link_count();
    let mut routes = Vec::with_capacity(alloc, agents.as_slice().len())?;
    let rows = check_trips(alloc, net, trips, agents.as_slice(), &mut routes)?;
    match rows {
        Verdict::Yes => {}
        Verdict::No { .. } => return Ok(rows),
    }
    let routes = Routes::of(routes);
    let loading = Loading {
        net,
        queue: plan.queue,
        delta: plan.delta,
        horizon: plan.horizon,
        trips,
        routes: &routes,
    };
    check_loading(
        alloc,
        &loading,
        agents.as_slice(),
        times.as_slice(),
        plan.bucket,
    )
}
