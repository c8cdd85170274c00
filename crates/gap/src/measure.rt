// The gap of an iteration.
ghost use Rattle.std.specs.Prelude.{◌≡◌, ◌+◌, ◌<◌, ◌≤◌, ◌*◌, ◌^◌, ℕ, List, length, All, Some, IfOk};
ghost use Rattle.dta_model.specs.Sound.{AreTrips};
ghost use Rattle.dta_model.specs.Sound.{AreWalks};
ghost use Rattle.link_times.specs.TimeTables.{IsShort};
ghost use Rattle.gap.specs.Gap.{IsGapLine, has_route};
ghost use Rattle.gap.specs.RouteTimes.{over_vehicles, ppm_of, steps_of};
ghost use Rattle.gap.specs.Shares.{AreRoutes, steps_over};
ghost use Rattle.gap.specs.Told.{asks_for, least_at, least_in};
ghost use Rattle.net_core.specs.declared.rows.LinkNo.{LinkNo as LinkOf};
ghost use Rattle.time_routes.specs.Destinations.{AreTold, LeastOf};
ghost use Rattle.trip_costs.specs.WalkCosts.{table_in, timing};

use crate::line::GapLine;
use crate::shares::route_steps_by_shares;
use crate::timed_trips::TimedTrips;
use dta_model::{MOST_TRIPS, Route, Routes, Trip};
use net_core::{Memory, Net};
use std::alloc::Global;
use std::thread::Threads;
use time_routes::{Ask, TablePool, tell, tell_by_shares};
use trip_costs::WalkCosts;

// Parts per million are of so many.
const PER_MILLION: u128 = 1_000_000;

// The steps of a trip's route, and 0 where there is none.
fn route_steps(net: &Net, costs: &WalkCosts, trip: &Trip, route: &Option<Route>) -> u128
    requires table { length (table_in costs.now).free ≡ length net.now.links }
    requires short { IsShort (table_in costs.now) }
    requires links { (links : List LinkOf) → route.now ≡ Some links
        → All (λ l. l.0 < length net.now.links) links }
    ensures is { result ≡ steps_of (timing costs.now) net.now (Some trip.now) (Some route.now) }
    ensures low { result < 2 ^ 82 }
{
    match route {
        Some(route) => costs.time_of(net, trip.departure, route.as_slice()),
        None => 0,
    }
}

/// The steps of the routes of the vehicles from one up to another, summed.
pub(crate) fn steps_between(
    timed: &TimedTrips,
    routes: &[Option<Route>],
    from: usize,
    to: usize,
) -> u128
    requires routes { AreRoutes timed.now routes.now }
    requires from { from ≤ to }
    requires to { to ≤ length timed.now.trips.now }
    ensures is { over_vehicles from (steps_over timed.now routes.now) + result
        ≡ over_vehicles to (steps_over timed.now routes.now) }
    ensures low { result ≤ length timed.now.trips.now * 2 ^ 82 }
{
    let mut total: u128 = 0;
    for v in from..to {
        total += route_steps(timed.net, &timed.costs, &timed.trips[v], &routes[v]);
    }
    total
}

// The least steps that are told of a vehicle with a route, and 0 without one.
fn least_steps(route: &Option<Route>, told: Option<u64>) -> u64
    ensures { result ≡ least_in route.now told }
{
    match (route, told) {
        (Some(_), Some(time)) => time,
        _ => 0,
    }
}

// The least steps of all vehicles with routes, summed.
fn all_least_steps(routes: &[Option<Route>], told: &[Option<u64>]) -> u128
    requires few { length routes.now ≤ MOST_TRIPS }
    requires each { length told.now ≡ length routes.now }
    ensures { result ≡ over_vehicles (length routes.now) (least_at routes.now told.now) }
{
    let mut total: u128 = 0;
    for v in 0..routes.len() {
        total += least_steps(&routes[v], told[v]) as u128;
    }
    total
}

// A gap in parts per million of the least steps.
fn ppm(gap: u128, least: u128) -> u128
    requires { gap < 2 ^ 108 }
    ensures { result ≡ ppm_of gap least }
{
    if least == 0 {
        0
    } else {
        PER_MILLION * gap / least
    }
}

// The line of a gap, by the steps of the routes and the least times that are told.
fn line_of(
    timed: &TimedTrips,
    routes: &[Option<Route>],
    told: &[Option<u64>],
    route_steps: u128,
) -> GapLine
    requires routes { AreRoutes timed.now routes.now }
    requires told { AreTold (LeastOf (timing timed.now.costs) timed.now.net.now)
        (has_route routes.now) timed.now.trips.now told.now }
    requires steps { route_steps ≡ over_vehicles (length timed.now.trips.now)
        (steps_over timed.now routes.now) }
    requires low { route_steps < 2 ^ 108 }
    ensures { IsGapLine (timing timed.now.costs) timed.now.net.now timed.now.trips.now
        routes.now result }
{
    let least_steps = all_least_steps(routes, told);
    let gap_steps = route_steps - least_steps;
    GapLine {
        route_steps,
        least_steps,
        gap_steps,
        ppm: ppm(gap_steps, least_steps),
    }
}

/// The line of the gap of routes over costs, where the least times of the vehicles that have
/// routes are told. It takes no memory.
pub fn gap_line(timed: &TimedTrips, routes: &Routes, told: &[Option<u64>]) -> GapLine
    requires routes { AreRoutes timed.now routes.now }
    requires told { AreTold (LeastOf (timing timed.now.costs) timed.now.net.now)
        (has_route routes.now) timed.now.trips.now told.now }
    ensures { IsGapLine (timing timed.now.costs) timed.now.net.now timed.now.trips.now
        routes.now result }
{
    let routes = routes.as_slice();
    let route_steps = steps_between(timed, routes, 0, timed.trips.len());
    line_of(timed, routes, told, route_steps)
}

/// The same as [`gap_line`], with the routes walked by shares of the vehicles side by side: at
/// most four, and at most as many as there are workers.
pub fn gap_line_by_shares<R: AllocGlobal + Threads + Sync>(
    rt: &R,
    timed: &TimedTrips,
    routes: &Routes,
    told: &[Option<u64>],
    workers: u32,
) -> Result<GapLine, Memory>
    requires routes { AreRoutes timed.now routes.now }
    requires told { AreTold (LeastOf (timing timed.now.costs) timed.now.net.now)
        (has_route routes.now) timed.now.trips.now told.now }
    requires workers { 1 ≤ workers }
    ensures { IfOk result (IsGapLine (timing timed.now.costs) timed.now.net.now
        timed.now.trips.now routes.now) }
{
    let routes = routes.as_slice();
    let route_steps = route_steps_by_shares(rt, timed, routes, workers)?;
    Ok(line_of(timed, routes, told, route_steps))
}

// What is asked for a gap: the least times of the vehicles that have routes.
fn asks_of(alloc: Global, routes: &[Option<Route>]) -> Result<Vec<Ask>, Memory>
    ensures { IfOk result (λ asks. asks.items ≡ asks_for routes.now) }
{
    let mut asks = Vec::new(alloc);
    for route in routes {
        asks.push(Ask {
            least: route.is_some(),
            walk: false,
        })?;
    }
    Ok(asks)
}

/// The line of the gap of routes over costs: how many steps the routes take, started at the
/// departures, and how many the least ones of the same vehicles.
pub fn gap(
    alloc: Global,
    net: &Net,
    costs: WalkCosts,
    trips: &[Trip],
    routes: &Routes,
) -> Result<GapLine, Memory>
    requires table { length (table_in costs).free ≡ length net.now.links }
    requires short { IsShort (table_in costs) }
    requires trips { AreTrips trips.now }
    requires each { length routes.now ≡ length trips.now }
    requires walks { AreWalks net.now trips.now routes.now }
    ensures { IfOk result (IsGapLine (timing costs.entry) net.now trips.now routes.now) }
{
    let asks = asks_of(alloc, routes.as_slice())?;
    let told = tell(alloc, net, costs, trips, &asks)?;
    Ok(gap_line(&TimedTrips { net, costs, trips }, routes, &told.leasts))
}

/// The same as [`gap`], by shares of the destinations side by side, at most as many as the pool
/// has workers. Labels are filled in the pool's memory.
pub fn gap_by_shares<R: AllocGlobal + Threads + Sync>(
    rt: &R,
    net: &Net,
    costs: WalkCosts,
    trips: &[Trip],
    routes: &Routes,
    pool: &TablePool,
) -> Result<GapLine, Memory>
    requires table { length (table_in costs).free ≡ length net.now.links }
    requires short { IsShort (table_in costs) }
    requires trips { AreTrips trips.now }
    requires each { length routes.now ≡ length trips.now }
    requires walks { AreWalks net.now trips.now routes.now }
    ensures { IfOk result (IsGapLine (timing costs.entry) net.now trips.now routes.now) }
{
    let asks = asks_of(rt.alloc(), routes.as_slice())?;
    let told = tell_by_shares(rt, net, costs, trips, &asks, pool)?;
    let timed = TimedTrips { net, costs, trips };
    let line = gap_line_by_shares(rt, &timed, routes, &told.leasts, pool.workers())?;
    Ok(line)
}
