// The routes of the iterations.
ghost use Rattle.std.specs.Prelude.{◌≡◌, ◌≤◌, ℕ, length, [], IfOk};
ghost use Rattle.dta_model.specs.LinkTimes.{free_table, time_at};
ghost use Rattle.dta_model.specs.Sound.{AreTrips};
ghost use Rattle.dta_model.specs.declared.loading.TheConstants.{MOST_HORIZON};
ghost use Rattle.dta_model.specs.Sound.{AreWalks};
ghost use Rattle.gap.specs.Gap.{IsGapLine};
ghost use Rattle.gap.specs.Shares.{AreRoutes};
ghost use Rattle.route_flows.specs.Averages.{AreChosenRoutes, AreFirstRoutes, AreNextRoutes};
ghost use Rattle.route_flows.specs.Averages.{AreStartedBy, AreStartedRoutes};
ghost use Rattle.route_flows.specs.declared.selection.TheConstants.{MOST_ITERATION};
ghost use Rattle.trip_costs.specs.Timings.{Links};
ghost use Rattle.trip_costs.specs.WalkCosts.{table_in, timing};

use crate::change::Change;
use crate::kept::{copies, fill_in, renewed};
use crate::selection::{asks_of, rest_of};
use crate::starts::start_walks;
use dta_model::{Routes, Trip};
use gap::{GapLine, TimedTrips, gap_line_by_shares};
use link_times::LinkTimes;
use net_core::{Memory, Net};
use start_table::StartRows;
use std::thread::Threads;
use time_routes::{TablePool, Told, tell_by_shares};
use trip_costs::WalkCosts;

/// The most workers.
pub const MOST_WORKERS: u32 = 16;

/// The routes of the first iteration from a start table: a vehicle that a row fits has that row's
/// walk, and any other its chosen walk by free-flow steps, from its departure. They are those of
/// the free-flow table of any bucket length up to the horizon. A destination has no labels if rows
/// fit all vehicles that go there.
pub fn started_routes<R: AllocGlobal + Threads + Sync>(
    rt: &R,
    net: &Net,
    trips: &[Trip],
    horizon: u32,
    workers: u32,
    start: &StartRows,
) -> Result<Routes, Memory>
    requires trips { AreTrips trips.now }
    requires horizon_least { 1 ≤ horizon }
    requires horizon_most { horizon ≤ MOST_HORIZON }
    requires workers_least { 1 ≤ workers }
    requires workers_most { workers ≤ MOST_WORKERS }
    ensures started { IfOk result (AreStartedRoutes net.now start.now trips.now) }
    ensures table { (bucket : ℕ) → 1 ≤ bucket
        → IfOk result (AreStartedBy (Links (time_at (free_table net.now bucket horizon))) net.now
        start.now trips.now) }
    ensures walks { IfOk result (AreWalks net.now trips.now) }
{
    let alloc = rt.alloc();
    let mut routes = start_walks(alloc, net, trips, start)?;
    // Free-flow steps stand still, so that a table of one step serves.
    let times = LinkTimes::free(alloc, net, 1, 1)?;
    let asks = rest_of(alloc, &routes)?;
    let Told {
        leasts: _,
        mut walks,
    } = tell_by_shares(
        rt,
        net,
        WalkCosts::Links(&times),
        trips,
        &asks,
        &TablePool::new(alloc, workers),
    )?;
    fill_in(&mut walks, &mut routes);
    Ok(Routes::of(routes))
}

/// The gap of iteration k and the routes of the next one, from those of iteration k and its costs,
/// in one pass over the destinations: the vehicles that are selected have their chosen walks from
/// their departures, the others keep their routes. Routes that are kept are moved, and none is
/// copied. Labels are filled in the pool's memory, by its workers.
pub fn gap_and_next_routes<R: AllocGlobal + Threads + Sync>(
    rt: &R,
    timed: &TimedTrips,
    routes: Routes,
    k: u32,
    pool: &TablePool,
) -> Result<(GapLine, Routes), Memory>
    requires trips { AreTrips timed.now.trips.now }
    requires routes { AreRoutes timed.now routes }
    requires k_least { 1 ≤ k }
    requires k_most { k ≤ MOST_ITERATION }
    ensures gap { IfOk result (λ r. IsGapLine (timing timed.now.costs) timed.now.net.now
        timed.now.trips.now routes r.0) }
    ensures next { IfOk result (λ r. AreNextRoutes (timing timed.now.costs) timed.now.net.now
        timed.now.trips.now k routes r.1) }
    ensures walks { IfOk result (λ r. AreWalks timed.now.net.now timed.now.trips.now r.1) }
{
    let change = Change {
        costs: timed.costs,
        k,
    };
    let asks = asks_of(rt.alloc(), routes.as_slice(), &change)?;
    let told = tell_by_shares(rt, timed.net, timed.costs, timed.trips, &asks, pool)?;
    let line = gap_line_by_shares(rt, timed, &routes, &told.leasts, pool.workers())?;
    Ok((line, renewed(told.walks, &change, routes.into_vec())))
}

/// The same as [`started_routes`] without a row: each vehicle has its chosen walk.
pub fn first_routes<R: AllocGlobal + Threads + Sync>(
    rt: &R,
    net: &Net,
    trips: &[Trip],
    horizon: u32,
    workers: u32,
) -> Result<Routes, Memory>
    requires trips { AreTrips trips.now }
    requires horizon_least { 1 ≤ horizon }
    requires horizon_most { horizon ≤ MOST_HORIZON }
    requires workers_least { 1 ≤ workers }
    requires workers_most { workers ≤ MOST_WORKERS }
    ensures first { IfOk result (AreFirstRoutes net.now trips.now) }
    ensures table { (bucket : ℕ) → 1 ≤ bucket
        → IfOk result (AreChosenRoutes (Links (time_at (free_table net.now bucket horizon))) net.now
        trips.now) }
    ensures walks { IfOk result (AreWalks net.now trips.now) }
    ensures unstarted { IfOk result (AreStartedRoutes net.now [] trips.now) }
{
    let start = StartRows::new(rt.alloc());
    let routes = started_routes(rt, net, trips, horizon, workers, &start)?;
    Ok(routes)
}

/// The routes of [`gap_and_next_routes`] alone, from routes that are copied.
pub fn next_routes<R: AllocGlobal + Threads + Sync>(
    rt: &R,
    net: &Net,
    trips: &[Trip],
    costs: WalkCosts,
    routes: &Routes,
    k: u32,
    workers: u32,
) -> Result<Routes, Memory>
    requires table { length (table_in costs).free ≡ length net.now.links }
    requires trips { AreTrips trips.now }
    requires each { length routes.now ≡ length trips.now }
    requires walks { AreWalks net.now trips.now routes.now }
    requires k_least { 1 ≤ k }
    requires k_most { k ≤ MOST_ITERATION }
    requires workers_least { 1 ≤ workers }
    requires workers_most { workers ≤ MOST_WORKERS }
    ensures next { IfOk result (AreNextRoutes (timing costs.entry) net.now trips.now k routes.now) }
    ensures walks { IfOk result (AreWalks net.now trips.now) }
{
    let alloc = rt.alloc();
    let old = routes.as_slice();
    let change = Change { costs, k };
    let asks = asks_of(alloc, old, &change)?;
    let pool = TablePool::new(alloc, workers);
    let told = tell_by_shares(rt, net, costs, trips, &asks, &pool)?;
    Ok(renewed(told.walks, &change, copies(alloc, old)?))
}
