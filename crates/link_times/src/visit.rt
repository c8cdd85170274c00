// The steps that one visit takes.
ghost use Rattle.std.specs.Prelude.{◌≡◌, ℕ, suc, ◌+◌, ◌<◌, ◌≤◌, List, length, slice_get};
ghost use Rattle.std.specs.Prelude.{slice_index, Option};
ghost use Rattle.dta_model.specs.Lent.{plan_of};
ghost use Rattle.dta_model.specs.LinkTimes.{visit_time};
ghost use Rattle.dta_model.specs.Sound.{IsSound};
ghost use Rattle.dta_model.specs.TimedWalks.{penalty_steps};
ghost use Rattle.net_core.specs.Network.{turn as turn_between};
ghost use Rattle.link_times.specs.Journeys.{HasGone, link_on, moves_along};

use dta_model::{Loading, MOST_HORIZON};
use net_core::{LinkNo, Net};

// The penalty of the turn from a link to another.
fn penalty(net: &Net, a: LinkNo, b: LinkNo) -> u32
    requires from { a.0 < length net.now.links }
    requires to { b.0 < length net.now.links }
    ensures { result ≡ penalty_steps (turn_between net.now a.0 b.0) }
{
    match net.turn(a, b) {
        Some(turn) => turn.penalty,
        None => 0,
    }
}

// The steps that a vehicle's visit to the link at a place of its route takes.
pub fn visit_steps(
    loading: &Loading,
    vehicle: u32,
    route: &[LinkNo],
    entries: &[u32],
    arrival: Option<u32>,
    place: usize,
) -> u32
    requires sound { IsSound (plan_of loading.now) }
    requires gone { HasGone (plan_of loading.now) vehicle route.now entries.now arrival }
    requires place { place < length entries.now }
    ensures time { result ≡ visit_time (plan_of loading.now)
        (link_on route.now place) (slice_index entries.now place)
        (slice_get (moves_along vehicle route.now entries.now arrival) (suc place)) }
    ensures least { 1 ≤ result }
    ensures most { result ≤ MOST_HORIZON }
{
    let entry = entries[place];
    let link = route[place];
    if place + 1 < entries.len() {
        entries[place + 1] - entry - penalty(loading.net, link, route[place + 1])
    } else {
        match arrival {
            Some(step) => step - entry,
            None => loading.net.link(link).free.max(loading.horizon - entry),
        }
    }
}
