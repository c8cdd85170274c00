// Least free-flow times from each state to a zone.
ghost use Rattle.std.specs.Prelude.{◌≡◌, ℕ, ◌+◌, ◌<◌, ◌≤◌, length, replicate, slice_index, All};
ghost use Rattle.std.specs.Prelude.{[], IfOk, OnOk};
ghost use Rattle.std.specs.BinaryHeap.{heap_items};
ghost use Rattle.labels.specs.Filling.Falling.{mark_of, work, AreAllBack};
ghost use Rattle.labels.specs.Filling.Falling.{Falls, IsLowered};
ghost use Rattle.labels.specs.Filling.FreeFlow.{AreSettled, AreShort};
ghost use Rattle.labels.specs.Filling.Labels.{far};
ghost use Rattle.labels.specs.Filling.WaysBack.{AreWaysBack};
ghost use Rattle.trip_costs.specs.WalkCosts.{table_in};

use crate::filling::no_walk::FAR;
use crate::filling::timed_router::TimedRouter;
use crate::filling::ways_back::WaysBack;
use crate::states::router::Router;
use net_core::{LinkNo, Memory};
use std::alloc::Global;
use std::cmp::Reverse;
use std::collections::BinaryHeap;

/// A state with what is left from it, as it waits to be looked at. The one with the least is
/// looked at first, so that each state is mostly looked at once.
#[derive(Clone, Copy, PartialEq, Eq, PartialOrd, Ord, Drop)]
pub(crate) struct Reached {
    left: u64,
    state: usize,
}

// Lowers what is left from a state to a number, and has the state wait, if the number is less.
fn lower(
    tail: &mut [u64],
    heap: &mut BinaryHeap<Reverse<Reached>>,
    state: usize,
    left: u64,
) -> Result<(), Memory>
    requires { state < length tail.old }
    ensures { OnOk result (IsLowered tail.old (heap_items heap.old) state left tail.new
        (heap_items heap.new)) }
{
    if left < tail[state] {
        heap.push(Reverse(Reached { left, state }))?;
        tail[state] = left;
    }
    Ok(())
}

// How many ways back hold all that lead to a state that waited, and none if less is left by now:
// then the state waits once more.
fn ways_to(lasts: &[usize], tail: &[u64], reached: Reached) -> usize
    requires state { reached.state < length tail.now }
    requires lasts { length lasts.now ≡ length tail.now }
    ensures { result ≡ mark_of lasts.now tail.now reached }
{
    if reached.left == tail[reached.state] {
        lasts[reached.state]
    } else {
        0
    }
}

/// What a search from a zone backwards reads: the ways back of a router where link times stand
/// still, these times, and the zone by its number.
#[derive(Clone, Copy, Drop)]
pub(crate) struct Backward<'a> {
    back: &'a WaysBack,
    router: &'a Router,
    free: &'a [u32],
    zone: u32,
}

// Looks at a state that waited: lowers what is left where the ways to it begin.
fn look_at(
    tail: &mut [u64],
    heap: &mut BinaryHeap<Reverse<Reached>>,
    to: &Backward,
    reached: Reached,
) -> Result<(), Memory>
    requires back { AreAllBack to.now }
    requires state { reached.state < length tail.old }
    requires falling { Falls to.now (heap_items heap.old) tail.old (length
        to.now.router.now.zones.items) reached.state (mark_of to.now.back.now.lasts.items tail.old
        reached) }
    ensures falling { OnOk result (Falls to.now (heap_items heap.new) tail.new (length
        to.now.router.now.zones.items) 0 0) }
    ensures less { OnOk result
        (work (heap_items heap.new) tail.new ≤ work (heap_items heap.old) tail.old) }
{
    let mut count = ways_to(to.back.lasts.as_slice(), tail, reached);
    while count > 0 {
        let way = to.back.ways[count - 1];
        lower(tail, heap, way.from, reached.left + way.span)?;
        count = way.before;
    }
    Ok(())
}

// Looks at the states that wait, the least first, until none waits.
fn settle(
    tail: &mut [u64],
    heap: &mut BinaryHeap<Reverse<Reached>>,
    to: &Backward,
) -> Result<(), Memory>
    requires back { AreAllBack to.now }
    requires falling { Falls to.now (heap_items heap.old) tail.old (length
        to.now.router.now.zones.items) 0 0 }
    ensures settled { OnOk result (AreSettled to.now.free.now to.now.router.now to.now.zone
        tail.new) }
    ensures short { OnOk result (AreShort tail.new) }
    ensures low { OnOk result (All (λ x. x ≤ far) tail.new) }
{
    'each: loop {
        match heap.pop() {
            None => return Ok(()),
            Some(first) => look_at(tail, heap, to, first.0)?,
        }
    }
}

// Nothing is left from a state of the zone, which waits.
fn begin_at(
    tail: &mut [u64],
    heap: &mut BinaryHeap<Reverse<Reached>>,
    to: &Backward,
    state: usize,
) -> Result<(), Memory>
    requires state { state < length tail.old }
    requires falling { Falls to.now (heap_items heap.old) tail.old state 0 0 }
    ensures { OnOk result (Falls to.now (heap_items heap.new) tail.new (state + 1) 0 0) }
{
    if to.router.is_in(state, to.zone) {
        lower(tail, heap, state, 0)?;
    }
    Ok(())
}

// Nothing is left from the states of the zone, which wait.
fn begin(
    tail: &mut [u64],
    heap: &mut BinaryHeap<Reverse<Reached>>,
    to: &Backward,
) -> Result<(), Memory>
    requires back { AreAllBack to.now }
    requires tail { tail.old ≡ replicate (length to.now.router.now.zones.items) far }
    requires heap { heap_items heap.old ≡ [] }
    ensures { OnOk result (Falls to.now (heap_items heap.new) tail.new (length
        to.now.router.now.zones.items) 0 0) }
{
    for state in 0..tail.len() {
        begin_at(tail, heap, to, state)?;
    }
    Ok(())
}

/// The free-flow steps of links, which they take from the horizon on.
pub(crate) fn free_steps(alloc: Global, timed: &TimedRouter) -> Result<Vec<u32>, Memory>
    ensures many { IfOk result (λ free. length free.items ≡ timed.now.links) }
    ensures each { IfOk result (λ free. (l : ℕ) → l < timed.now.links
        → slice_index free.items l ≡ slice_index (table_in timed.now.costs).free l) }
{
    let horizon = timed.costs.horizon() as u64;
    let mut free = Vec::new(alloc);
    for link in 0..timed.links {
        free.push(timed.costs.steps(LinkNo(link), horizon))?;
    }
    Ok(free)
}

/// The least free-flow times from each state to a zone, found from the zone backwards.
pub(crate) fn tail_of(
    alloc: Global,
    router: &Router,
    back: &WaysBack,
    free: &[u32],
    zone: u32,
) -> Result<Vec<u64>, Memory>
    requires links { length router.now.states.items ≡ length free.now }
    requires back { AreWaysBack router.now free.now back.now.ways.items back.now.lasts.items
        (length router.now.zones.items) 0 }
    ensures many { IfOk result (λ tail. length tail.items ≡ length router.now.zones.items) }
    ensures settled { IfOk result (λ tail. AreSettled free.now router.now zone tail.items) }
    ensures short { IfOk result (λ tail. AreShort tail.items) }
    ensures low { IfOk result (λ tail. All (λ x. x ≤ far) tail.items) }
{
    let mut heap = BinaryHeap::new(alloc);
    let mut tail = Vec::from_elem(alloc, FAR, router.state_count())?;
    let to = Backward {
        back,
        router,
        free,
        zone,
    };
    begin(tail.as_mut_slice(), &mut heap, &to)?;
    settle(tail.as_mut_slice(), &mut heap, &to)?;
    Ok(tail)
}
