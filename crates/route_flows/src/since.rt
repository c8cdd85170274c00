// The iterations in which vehicles took their routes.
ghost use Rattle.std.specs.Prelude.{◌≡◌, ◌≤◌, IfOk};
ghost use Rattle.dta_model.specs.Sound.{AreTrips};
ghost use Rattle.route_flows.specs.Averages.{AreSince};
ghost use Rattle.route_flows.specs.Starting.{IsNumbered, TellsRenewal};
ghost use Rattle.route_flows.specs.Selection.{first_number as first_number_of};
ghost use Rattle.route_flows.specs.declared.selection.TheConstants.{MOST_ITERATION};

use crate::selection::renews;
use crate::starts::start_walks;
use dta_model::{Route, Steps, Trip};
use net_core::{Memory, Net};
use start_table::StartRows;
use std::alloc::Global;
use trip_costs::Costs;

// The last of so many iterations after which a vehicle takes a new route for a later one of them,
// if there is one.
fn last_renewal(by: Costs, vehicle: u32, iterations: u32) -> Option<u32>
    requires { iterations ≤ MOST_ITERATION }
    ensures { TellsRenewal by vehicle iterations result }
{
    let mut k = iterations;
    while k > 1 {
        k -= 1;
        if renews(by, k, vehicle) {
            return Some(k);
        }
    }
    None
}

// The number of a vehicle's first route: 0 where a row has it, else 1.
fn first_number(walk: &Option<Route>) -> u32
    ensures { result ≡ first_number_of walk.now }
{
    match walk {
        Some(_) => 0,
        None => 1,
    }
}

// The iteration in which a vehicle last took its route.
fn since(by: Costs, vehicle: u32, iterations: u32, walk: &Option<Route>) -> u32
    requires { iterations ≤ MOST_ITERATION }
    ensures { IsNumbered by vehicle iterations walk.now result }
{
    match last_renewal(by, vehicle, iterations) {
        Some(k) => k + 1,
        None => first_number(walk),
    }
}

/// For each vehicle the iteration in which it last took the route that it has after so many, also
/// where it is the route that it had: 0 where that is still the walk of a start table's row, and 1
/// where it is still its first chosen walk.
pub fn route_iterations(
    alloc: Global,
    by: Costs,
    net: &Net,
    trips: &[Trip],
    start: &StartRows,
    iterations: u32,
) -> Result<Steps, Memory>
    requires trips { AreTrips trips.now }
    requires least { 1 ≤ iterations }
    requires most { iterations ≤ MOST_ITERATION }
    ensures { IfOk result (AreSince by net.now start.now trips.now iterations) }
{
    let walks = start_walks(alloc, net, trips, start)?;
    let mut numbers = Vec::with_capacity(alloc, trips.len())?;
    for v in 0..trips.len() {
        numbers.push(since(by, v as u32, iterations, &walks[v]))?;
    }
    Ok(Steps::of(numbers))
}
