// The iterations of an assignment: what comes before and after each loading.
ghost use Rattle.std.specs.Prelude.{◌≡◌, ◌<◌, ◌≤◌, IfOk, OnOk};
ghost use Rattle.dta_model.specs.Loading.{journeys_of};
ghost use Rattle.link_times.specs.TimeTables.{IsShort};
ghost use Rattle.trip_costs.specs.Costs.{times_in, timing_in};
ghost use Rattle.assignment.specs.Assignment.{costs_of as costs_of_routes};
ghost use Rattle.assignment.specs.Assignment.{end_of as end_of_routes, times_of, waits_told};
ghost use Rattle.assignment.specs.Lent.{IsAssignment, plan_in, settings_in, traffic_in};
ghost use Rattle.assignment.specs.Progress.{HasBegun, HasEnded, HasNext};
ghost use Rattle.assignment.specs.Traffic.{AreRoutesOf};

use crate::lent::Assignment;
use dta_model::{Eight, Loaded, Routes};
use final_state::final_state;
use gap::{GapLine, gap_by_shares};
use net_core::Memory;
use route_flows::{gap_and_next_routes, started_routes};
use std::alloc::Global;
use std::mem;
use std::thread::Threads;
use time_routes::TablePool;
use trip_costs::{Costs, LoadingCosts, OriginWaits};

/// An iteration that is about to be loaded: its routes, and the gaps of those before it. The
/// labels of each are filled in the memory of the one before.
#[derive(Drop)]
pub struct Iteration {
    pub routes: Routes,
    pub lines: Vec<GapLine>,
    pub pool: TablePool,
}

/// What the last iteration of an assignment gives, and the gaps of all.
#[derive(Drop)]
pub struct Assigned {
    pub routes: Routes,
    pub loaded: Loaded,
    pub costs: LoadingCosts,
    /// The waits at origins, where the costs are of whole trips.
    pub waits: Option<OriginWaits>,
    pub end: Eight,
    pub lines: Vec<GapLine>,
    pub line: GapLine,
}

/// The first iteration. Its routes are those of the start table's rows that fit, and else the
/// chosen walks by free-flow steps.
pub fn begin<R: AllocGlobal + Threads + Sync>(
    rt: &R,
    assignment: &Assignment,
) -> Result<Iteration, Memory>
    requires { IsAssignment assignment.now }
    ensures { IfOk result (λ it. HasBegun (traffic_in assignment.now) it.routes it.lines.items) }
{
    let routes = started_routes(
        rt,
        assignment.net,
        assignment.trips,
        assignment.settings.horizon,
        assignment.workers,
        assignment.start,
    )?;
    let lines = Vec::new(rt.alloc());
    let pool = TablePool::new(rt.alloc(), assignment.workers);
    Ok(Iteration {
        routes,
        lines,
        pool,
    })
}

// The costs of the loading over the routes of an iteration.
fn costs_of(
    alloc: Global,
    assignment: &Assignment,
    routes: &Routes,
    loaded: &Loaded,
) -> Result<LoadingCosts, Memory>
    requires is { IsAssignment assignment.now }
    requires routes { AreRoutesOf (traffic_in assignment.now) routes.now }
    requires loaded { loaded.now ≡ journeys_of (plan_in assignment.now routes.now) }
    ensures costs { IfOk result (λ costs. timing_in costs
        ≡ costs_of_routes (settings_in assignment.now) (traffic_in assignment.now) routes.now) }
    ensures times { IfOk result (λ costs. times_in costs
        ≡ times_of (settings_in assignment.now) (traffic_in assignment.now) routes.now) }
    ensures short { IfOk result (λ costs. IsShort (times_in costs)) }
{
    let loading = assignment.loading(routes);
    let settings = assignment.settings;
    let costs = LoadingCosts::of(alloc, settings.costs, &loading, loaded, settings.bucket)?;
    Ok(costs)
}

// The waits at origins of that loading, where the costs are of whole trips.
fn waits_of(
    alloc: Global,
    assignment: &Assignment,
    routes: &Routes,
    loaded: &Loaded,
) -> Result<Option<OriginWaits>, Memory>
    requires is { IsAssignment assignment.now }
    requires routes { AreRoutesOf (traffic_in assignment.now) routes.now }
    requires loaded { loaded.now ≡ journeys_of (plan_in assignment.now routes.now) }
    ensures { IfOk result (λ waits. waits
        ≡ waits_told (settings_in assignment.now) (traffic_in assignment.now) routes.now) }
{
    match assignment.settings.costs {
        Costs::Links => Ok(None),
        Costs::Trips => {
            let loading = assignment.loading(routes);
            let waits = OriginWaits::of(alloc, &loading, loaded, assignment.settings.bucket)?;
            Ok(Some(waits))
        }
    }
}

// The state after the last step of that loading.
fn end_of(assignment: &Assignment, routes: &Routes, loaded: &Loaded) -> Eight
    requires is { IsAssignment assignment.now }
    requires routes { AreRoutesOf (traffic_in assignment.now) routes.now }
    requires loaded { loaded.now ≡ journeys_of (plan_in assignment.now routes.now) }
    ensures { result
        ≡ end_of_routes (settings_in assignment.now) (traffic_in assignment.now) routes.now }
{
    let loading = assignment.loading(routes);
    final_state(&loading, loaded)
}

/// Goes on from an iteration that isn't the last, which was loaded: makes its costs and its gap,
/// and the routes of the next one in place of its own.
pub fn advance<R: AllocGlobal + Threads + Sync>(
    rt: &R,
    assignment: &Assignment,
    it: &mut Iteration,
    loaded: Loaded,
    number: u32,
) -> Result<(), Memory>
    requires is { IsAssignment assignment.now }
    requires routes { AreRoutesOf (traffic_in assignment.now) it.old.routes }
    requires loaded { loaded ≡ journeys_of (plan_in assignment.now it.old.routes) }
    requires number { (1 ≤ number) × (number < (settings_in assignment.now).iterations) }
    ensures { OnOk result (HasNext (settings_in assignment.now) (traffic_in assignment.now) number
        it.old.routes it.new.routes it.old.lines.items it.new.lines.items) }
{
    let costs = costs_of(rt.alloc(), assignment, &it.routes, &loaded)?;
    drop(loaded);
    let old = mem::replace(&mut it.routes, Routes::of(Vec::new(rt.alloc())));
    let timed = assignment.timed(costs.lent());
    let (line, next) = gap_and_next_routes(rt, &timed, old, number, &it.pool)?;
    it.routes = next;
    it.lines.push(line)?;
    Ok(())
}

/// Ends with the last iteration, which was loaded: makes its costs, its gap, its waits at origins
/// where these are told, and its last state.
pub fn finish<R: AllocGlobal + Threads + Sync>(
    rt: &R,
    assignment: &Assignment,
    it: Iteration,
    loaded: Loaded,
) -> Result<Assigned, Memory>
    requires is { IsAssignment assignment.now }
    requires routes { AreRoutesOf (traffic_in assignment.now) it.routes }
    requires loaded { loaded ≡ journeys_of (plan_in assignment.now it.routes) }
    ensures { IfOk result (HasEnded (settings_in assignment.now) (traffic_in assignment.now)
        it.routes it.lines.items) }
{
    let Iteration {
        routes,
        mut lines,
        pool,
    } = it;
    let costs = costs_of(rt.alloc(), assignment, &routes, &loaded)?;
    let waits = waits_of(rt.alloc(), assignment, &routes, &loaded)?;
    let end = end_of(assignment, &routes, &loaded);
    let (net, trips) = (assignment.net, assignment.trips);
    let line = gap_by_shares(rt, net, costs.lent(), trips, &routes, &pool)?;
    lines.push(line)?;
    Ok(Assigned {
        routes,
        loaded,
        costs,
        waits,
        end,
        lines,
        line,
    })
}
