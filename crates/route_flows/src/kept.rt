// Old routes, and those that selected vehicles take instead.
ghost use Rattle.std.specs.Prelude.{◌≡◌, ◌<◌, ◌≤◌, length, cond, get_or, slice_set, None, IfOk};
ghost use Rattle.std.specs.Prelude.{is_none};
ghost use Rattle.dta_model.specs.declared.trip.TheConstants.{MOST_TRIPS};
ghost use Rattle.route_flows.specs.Asked.{Renews, takes};
ghost use Rattle.route_flows.specs.Starting.{FillsIn};

use crate::change::Change;
use dta_model::{Route, Routes};
use net_core::Memory;
use std::alloc::Global;

// A copy of a route, where there is one.
fn copied(alloc: Global, route: &Option<Route>) -> Result<Option<Route>, Memory>
    ensures { IfOk result (λ copy. copy ≡ route.now) }
{
    match route {
        Some(route) => Ok(Some(Route::of(Vec::from_slice(alloc, route.as_slice())?))),
        None => Ok(None),
    }
}

/// Copies of all routes.
pub(crate) fn copies(alloc: Global, routes: &[Option<Route>]) -> Result<Vec<Option<Route>>, Memory>
    ensures { IfOk result (λ copies. copies.items ≡ routes.now) }
{
    let mut copies = Vec::with_capacity(alloc, routes.len())?;
    for route in routes {
        copies.push(copied(alloc, route)?)?;
    }
    Ok(copies)
}

// Gives a vehicle its walk in place of its old route, which is left where the walk was, if it is
// selected.
fn renew(walks: &mut [Option<Route>], vehicle: u32, change: &Change, routes: &mut [Option<Route>])
    requires vehicle { vehicle < length routes.old }
    requires each { length walks.old ≡ length routes.old }
    ensures routes { routes.new ≡ cond (takes change.now vehicle)
        (slice_set routes.old vehicle (get_or walks.old vehicle None)) routes.old }
    ensures walks { walks.new ≡ cond (takes change.now vehicle)
        (slice_set walks.old vehicle (get_or routes.old vehicle None)) walks.old }
{
    if change.takes(vehicle) {
        std::mem::swap(&mut routes[vehicle as usize], &mut walks[vehicle as usize]);
    }
}

// Gives each vehicle that is selected its walk in place of its old route; the others keep theirs.
fn renew_selected(walks: &mut [Option<Route>], change: &Change, routes: &mut [Option<Route>])
    requires few { length routes.old ≤ MOST_TRIPS }
    requires each { length walks.old ≡ length routes.old }
    ensures { Renews (takes change.now) walks.old (length routes.old) routes.old routes.new }
{
    for v in 0..routes.len() {
        renew(walks, v as u32, change, routes);
    }
}

/// Routes, with the walk of each vehicle that is selected in place of its old route. No route is
/// copied.
pub(crate) fn renewed(
    mut walks: Vec<Option<Route>>,
    change: &Change,
    mut routes: Vec<Option<Route>>,
) -> Routes
    requires few { length routes.items ≤ MOST_TRIPS }
    requires each { length walks.items ≡ length routes.items }
    ensures { Renews (takes change.now) walks.items (length routes.items) routes.items result }
{
    renew_selected(&mut walks, change, &mut routes);
    Routes::of(routes)
}

// Gives a vehicle its other walk, if it has none.
fn fill(others: &mut [Option<Route>], vehicle: usize, walks: &mut [Option<Route>])
    requires vehicle { vehicle < length walks.old }
    requires each { length others.old ≡ length walks.old }
    ensures walks { walks.new ≡ cond (is_none (get_or walks.old vehicle None))
        (slice_set walks.old vehicle (get_or others.old vehicle None)) walks.old }
    ensures others { others.new ≡ cond (is_none (get_or walks.old vehicle None))
        (slice_set others.old vehicle None) others.old }
{
    if walks[vehicle].is_none() {
        std::mem::swap(&mut walks[vehicle], &mut others[vehicle]);
    }
}

/// Gives each vehicle without a walk its other one. No route is copied.
pub(crate) fn fill_in(others: &mut [Option<Route>], walks: &mut [Option<Route>])
    requires { length others.old ≡ length walks.old }
    ensures { FillsIn others.old walks.old walks.new }
{
    for v in 0..walks.len() {
        fill(others, v, walks);
    }
}
