// Who takes a new route after an iteration, and what is asked for that.
ghost use Rattle.std.specs.Prelude.{◌≡◌, ◌≤◌, length, IfOk};
ghost use Rattle.dta_model.specs.declared.trip.TheConstants.{MOST_TRIPS};
ghost use Rattle.route_flows.specs.Asked.{AreAsked, takes as takes_of};
ghost use Rattle.route_flows.specs.Starting.{asks_for_rest};
ghost use Rattle.route_flows.specs.Selection.{is_selected as selected_of, renews as renews_of};

use crate::change::Change;
use dta_model::Route;
use net_core::Memory;
use std::alloc::Global;
use time_routes::Ask;
use trip_costs::{Costs, changes_after};

/// The last iteration after which routes may change.
pub const MOST_ITERATION: u32 = 1000;

/// Whether a vehicle takes a new route after an iteration: one in k + 1 does, by its number over
/// all vehicles.
pub fn is_selected(vehicle: u32, k: u32) -> bool
    requires { k ≤ MOST_ITERATION }
    ensures { result ≡ selected_of vehicle k }
{
    let k = k as u64;
    (vehicle as u64 + k * k / 4) % (k + 1) == 0
}

/// Whether a vehicle takes its chosen walk after an iteration, by either costs.
pub(crate) fn renews(by: Costs, k: u32, vehicle: u32) -> bool
    requires { k ≤ MOST_ITERATION }
    ensures { result ≡ renews_of by k vehicle }
{
    match by {
        Costs::Links => is_selected(vehicle, k),
        Costs::Trips => changes_after(vehicle, k),
    }
}

impl Change<'_> {
    // Whether a vehicle takes its chosen walk.
    pub(crate) fn takes(&self, vehicle: u32) -> bool
        ensures { result ≡ takes_of self.now vehicle }
    {
        renews(self.costs.kind(), self.k, vehicle)
    }
}

/// The walks of the vehicles that are selected after an iteration, and the least times of those
/// that have routes.
pub(crate) fn asks_of(
    alloc: Global,
    routes: &[Option<Route>],
    change: &Change,
) -> Result<Vec<Ask>, Memory>
    requires few { length routes.now ≤ MOST_TRIPS }
    ensures { IfOk result (λ asks.
        AreAsked (takes_of change.now) routes.now (length routes.now) asks.items) }
{
    let mut asks = Vec::new(alloc);
    for v in 0..routes.len() {
        asks.push(Ask {
            least: routes[v].is_some(),
            walk: change.takes(v as u32),
        })?;
    }
    Ok(asks)
}

/// The walks of the vehicles that have none.
pub(crate) fn rest_of(alloc: Global, walks: &[Option<Route>]) -> Result<Vec<Ask>, Memory>
    ensures { IfOk result (λ asks. asks.items ≡ asks_for_rest walks.now) }
{
    let mut asks = Vec::with_capacity(alloc, walks.len())?;
    for walk in walks {
        asks.push(Ask {
            least: false,
            walk: walk.is_none(),
        })?;
    }
    Ok(asks)
}
