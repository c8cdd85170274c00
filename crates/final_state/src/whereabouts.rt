// Where vehicles are at the end of a loading.
ghost use Rattle.std.specs.Prelude.{◌≡◌, ◌<◌, ◌≤◌, length};
ghost use Rattle.dta_model.specs.Lent.{plan_of};
ghost use Rattle.dta_model.specs.Loading.{journeys_of, trace_after};
ghost use Rattle.dta_model.specs.Sound.{IsSound};
ghost use Rattle.final_state.specs.Whereabouts.{whereabouts_at, whereabouts_by};

use dta_model::{Loaded, Loading};
use net_core::LinkNo;

// Where a vehicle is.
#[derive(Clone, Copy, Drop)]
pub enum Whereabouts {
    // It has no route, and isn't loaded.
    Unrouted,
    // It waits for its first link.
    Waiting,
    // It is on a link.
    OnLink(LinkNo),
    // It has arrived.
    Arrived,
}

// Where a vehicle is that goes along a route, by its journey.
fn whereabouts_along(route: &[LinkNo], entries: &[u32], arrival: Option<u32>) -> Whereabouts
    requires { length entries.now ≤ length route.now }
    ensures { result ≡ whereabouts_by route.now entries.now arrival }
{
    if arrival.is_some() {
        Whereabouts::Arrived
    } else if entries.is_empty() {
        Whereabouts::Waiting
    } else {
        Whereabouts::OnLink(route[entries.len() - 1])
    }
}

// Where a vehicle is after the last step.
pub fn whereabouts_of(loading: &Loading, loaded: &Loaded, vehicle: u32) -> Whereabouts
    requires sound { IsSound (plan_of loading.now) }
    requires loaded { loaded.now ≡ journeys_of (plan_of loading.now) }
    requires vehicle { vehicle < length loading.now.trips.now }
    ensures { result ≡ whereabouts_at (plan_of loading.now)
        (trace_after (plan_of loading.now) loading.now.horizon) vehicle }
{
    match loading.routes.get(vehicle) {
        Some(route) => {
            let journey = loaded.get(vehicle);
            whereabouts_along(
                route.as_slice(),
                journey.entries.as_slice(),
                journey.arrival,
            )
        }
        None => Whereabouts::Unrouted,
    }
}
