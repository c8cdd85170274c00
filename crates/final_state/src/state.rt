// The state after the last step.
ghost use Rattle.std.specs.Prelude.{◌≡◌, ◌+◌, ◌<◌, count_by, All};
ghost use Rattle.dta_model.specs.Lent.{plan_of};
ghost use Rattle.dta_model.specs.Loading.{journeys_of};
ghost use Rattle.dta_model.specs.Plans.{vehicles_of};
ghost use Rattle.dta_model.specs.Sound.{IsSound};
ghost use Rattle.dta_model.specs.State.{eight_after, is_routed};
ghost use Rattle.final_state.specs.Counts.{HasRoom, counted, one_more};

use crate::whereabouts::{Whereabouts, whereabouts_of};
use dta_model::{Eight, Loaded, Loading, MOST_TRIPS};
use net_core::LinkNo;

/// The state of a loading after its last step, from the journeys that it gave: the due vehicles
/// that wait for their first links, are on links and have arrived, and the vehicles on each of the
/// first four links of the table. The three counts add up to the vehicles that have routes.
pub fn final_state(loading: &Loading, loaded: &Loaded) -> Eight
    requires sound { IsSound (plan_of loading.now) }
    requires loaded { loaded.now ≡ journeys_of (plan_of loading.now) }
    ensures is { result ≡ eight_after (plan_of loading.now) loading.now.horizon }
    ensures all { result.waiting + result.running + result.arrived
        ≡ count_by (is_routed (plan_of loading.now)) (vehicles_of (plan_of loading.now)) }
{
    let mut eight = Eight {
        steps: loading.horizon as u64,
        waiting: 0,
        running: 0,
        arrived: 0,
        first: [0; 4],
    };
    for vehicle in 0..loading.trips.len() as u32 {
        count_in(&mut eight, whereabouts_of(loading, loaded, vehicle));
    }
    eight
}

// Counts a vehicle by its whereabouts.
fn count_in(eight: &mut Eight, whereabouts: Whereabouts)
    requires { HasRoom eight.old }
    ensures { eight.new ≡ counted whereabouts eight.old }
{
    match whereabouts {
        Whereabouts::Unrouted => {}
        Whereabouts::Waiting => eight.waiting += 1,
        Whereabouts::OnLink(link) => {
            eight.running += 1;
            count_on(&mut eight.first, link);
        }
        Whereabouts::Arrived => eight.arrived += 1,
    }
}

// Counts a vehicle on a link, where that is one of the first four.
fn count_on(first: &mut [u64; 4], link: LinkNo)
    requires { All (λ n. n < MOST_TRIPS) first.old }
    ensures { first.new ≡ one_more first.old link.0 }
{
    if (link.0 as usize) < first.len() {
        first[link.0 as usize] += 1;
    }
}
