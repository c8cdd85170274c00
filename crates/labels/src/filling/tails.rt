// Least free-flow times to each zone of a group.
ghost use Rattle.std.specs.Prelude.{ℕ, ◌+◌, ◌^◌, ◌<◌, ◌≤◌, length, map, slice_index, All, IfOk};
ghost use Rattle.labels.specs.Filling.Labels.{far};
ghost use Rattle.labels.specs.Filling.Tails.{most_tail, AreTails, FitsBelow};
ghost use Rattle.labels.specs.Filling.Timed.{horizon_of, time_in};
ghost use Rattle.labels.specs.ToZone.{zone_numbers};
ghost use Rattle.trip_costs.specs.WalkCosts.{table_in};

use crate::filling::free_flow::{free_steps, tail_of};
use crate::filling::no_walk::FAR;
use crate::filling::timed_router::TimedRouter;
use crate::filling::ways_back::ways_back;
use crate::states::longest_way::{most_time, most_wait};
use net_core::{Memory, ZoneNo};
use std::alloc::Global;

/// Least free-flow times to each of some zones, a list of states for each, and the greatest number
/// of a walk among them.
#[derive(Drop)]
pub(crate) struct Tails {
    pub(crate) zones: Vec<Vec<u64>>,
    pub(crate) most: u64,
}

// The greater of two numbers, where the second stands for a walk.
fn greater(most: u64, left: u64) -> u64
    requires { left < far → left ≤ most_tail }
    ensures old { most ≤ result }
    ensures new { left < far → left ≤ result }
    ensures low { most ≤ most_tail → result ≤ most_tail }
{
    if left < FAR { most.max(left) } else { most }
}

// The greatest number of a walk in a tail, and one before it.
fn most_in(tail: &[u64], before: u64) -> u64
    requires { All (λ x. x < far → x ≤ most_tail) tail.now }
    ensures old { before ≤ result }
    ensures near { (s : ℕ) → s < length tail.now → slice_index tail.now s < far
        → slice_index tail.now s ≤ result }
    ensures low { before ≤ most_tail → result ≤ most_tail }
{
    let mut most = before;
    for state in 0..tail.len() {
        most = greater(most, tail[state]);
    }
    most
}

/// The tail of each zone over the costs.
pub(crate) fn tails_of(
    alloc: Global,
    timed: &TimedRouter,
    zones: &[ZoneNo],
) -> Result<Tails, Memory>
    ensures tails { IfOk result (λ tails. AreTails (table_in timed.now.costs).free
        timed.now.router.now tails.most (map (λ tail. tail.items) tails.zones.items)
        (zone_numbers zones.now)) }
    ensures low { IfOk result (λ tails. tails.most ≤ most_tail) }
{
    let free = free_steps(alloc, timed)?;
    let steps = free.as_slice();
    let back = ways_back(alloc, timed.router, steps)?;
    let mut tails = Vec::new(alloc);
    let mut most = 0u64;
    for zone in zones {
        let tail = tail_of(alloc, timed.router, &back, steps, zone.0)?;
        most = most_in(tail.as_slice(), most);
        tails.push(tail)?;
    }
    Ok(Tails { zones: tails, most })
}

/// The most steps by which what is left may pass the most that a tail has, with one way on before
/// it: those up to the horizon, and twice those of the longest way on.
pub(crate) fn reach_of(timed: &TimedRouter) -> u64
    ensures fits { (most beyond : ℕ) → most ≤ most_tail → result + most < beyond → FitsBelow
        (time_in timed.now) (horizon_of timed.now) timed.now.router.now most beyond }
    ensures low { result < 2 ^ 40 }
{
    let wait = most_wait(timed.router) as u64;
    let longest = wait + most_time(timed.costs.times(), timed.links) as u64;
    timed.costs.horizon() as u64 + 2 * longest
}
