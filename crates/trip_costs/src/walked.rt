// The time of a walk by either costs.
ghost use Rattle.std.specs.Prelude.{◌≡◌, ◌+◌, ◌*◌, ◌<◌, ◌≤◌, ◌^◌, length, All};
ghost use Rattle.dta_model.specs.Plans.{link_numbers};
ghost use Rattle.dta_model.specs.TimedWalks.{arrival_after, penalty_steps};
ghost use Rattle.dta_model.specs.declared.loading.TheConstants.{MOST_HORIZON};
ghost use Rattle.fixed_units.specs.declared.turn.TheConstants.{MOST_PENALTY_STEPS};
ghost use Rattle.link_times.specs.TimeTables.{IsShort};
ghost use Rattle.net_core.specs.Network.{turn as turn_between};
ghost use Rattle.trip_costs.specs.Costs.{most_of_a_link};
ghost use Rattle.trip_costs.specs.Timings.{walk_time_by};
ghost use Rattle.trip_costs.specs.WalkCosts.{steps_in, table_in, timing};

use crate::walk_costs::WalkCosts;
use net_core::{LinkNo, Net};

// The steps that a link takes who enters it in a step. From the horizon on they stand still.
fn steps_at(costs: &WalkCosts, link: LinkNo, step: u128) -> u128
    requires short { IsShort (table_in costs.now) }
    requires link { link.0 < length (table_in costs.now).free }
    ensures is { result ≡ steps_in costs.now link.0 step }
    ensures short { result ≤ MOST_HORIZON }
{
    let entry = step.min(costs.horizon() as u128) as u64;
    costs.steps(link, entry) as u128
}

// The penalty steps of a turn.
fn penalty(net: &Net, a: LinkNo, b: LinkNo) -> u128
    requires from { a.0 < length net.now.links }
    requires to { b.0 < length net.now.links }
    ensures is { result ≡ penalty_steps (turn_between net.now a.0 b.0) }
    ensures short { result ≤ MOST_PENALTY_STEPS }
{
    let _links = net.link_count();
    match net.turn(a, b) {
        Some(turn) => turn.penalty as u128,
        None => 0,
    }
}

// The step of the arrival of who enters a link in a step, and the others after it.
fn arrival(net: &Net, costs: &WalkCosts, entry: u128, first: LinkNo, others: &[LinkNo]) -> u128
    requires table { length (table_in costs.now).free ≡ length net.now.links }
    requires short { IsShort (table_in costs.now) }
    requires entry { entry < 2 ^ 64 }
    requires first { first.0 < length net.now.links }
    requires others { All (λ l. l.0 < length net.now.links) others.now }
    ensures is { result ≡ arrival_after (steps_in costs.now) net.now entry first.0
        (link_numbers others.now) }
    ensures later { entry ≤ result }
    ensures soon { result ≤ entry + (length others.now + 1) * most_of_a_link }
{
    let mut link = first;
    let mut step = entry;
    for next in others {
        step += steps_at(costs, link, step) + penalty(net, link, *next);
        link = *next;
    }
    step + steps_at(costs, link, step)
}

impl WalkCosts<'_> {
    /// The steps of a walk that starts in a step, in 128 bits. By trips the first link is entered
    /// after the wait at the origin, and each link is left in its exit step.
    pub fn time_of(&self, net: &Net, start: u32, walk: &[LinkNo]) -> u128
        requires table { length (table_in self.now).free ≡ length net.now.links }
        requires short { IsShort (table_in self.now) }
        requires links { All (λ l. l.0 < length net.now.links) walk.now }
        ensures is { result ≡ walk_time_by (timing self.now) net.now start
            (link_numbers walk.now) }
        ensures low { result < 2 ^ 82 }
    {
        match walk {
            [first, others @ ..] => {
                let entry = self.enter(*first, u64::from(start)) as u128;
                arrival(net, self, entry, *first, others) - start as u128
            }
            [] => 0,
        }
    }
}
