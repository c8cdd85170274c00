// Turns of all vehicles, gathered, put in order and counted.
ghost use Rattle.std.specs.Prelude.{◌≡◌, ◌+◌, ◌<◌, ◌≤◌, ◌^◌, ◌++◌, length, All, IfOk, OnOk};
ghost use Rattle.std.specs.List.Sorted.{IsSorted};
ghost use Rattle.dta_model.specs.Lent.{plan_of};
ghost use Rattle.dta_model.specs.Loading.{journeys_of, trace_after};
ghost use Rattle.dta_model.specs.Sound.{IsSound};
ghost use Rattle.dta_model.specs.Trace.{moves_of};
ghost use Rattle.counts.specs.Inside.Turns.{AreAdded, AreTurnCounts, AreTurns};
ghost use Rattle.counts.specs.Inside.Turns.{is_count_of, turn_order, turns_along, with_turn};
ghost use Rattle.counts.specs.Turns.{IsOfNet, turn_counts};

use crate::turn_counts::{TurnCount, TurnCounts};
use dta_model::{Loaded, Loading};
use net_core::{LinkNo, Memory};
use std::alloc::Global;

/// A turn from a link to another, by their places in the table, that is taken in a bucket.
#[derive(Clone, Copy, PartialEq, Eq, PartialOrd, Ord, Drop)]
pub struct TimedTurn {
    pub a: u32,
    pub b: u32,
    pub bucket: u32,
}

/// How many moves from a link to another there are in each bucket of so many steps, up to the
/// horizon. A vehicle that takes a turn twice in a bucket counts twice there. The links come in
/// table order, and what no move takes is left out.
pub fn count_turns(
    alloc: Global,
    loading: &Loading,
    loaded: &Loaded,
    bucket: u32,
) -> Result<TurnCounts, Memory>
    requires sound { IsSound (plan_of loading.now) }
    requires loaded { loaded.now ≡ journeys_of (plan_of loading.now) }
    requires bucket { 1 ≤ bucket }
    ensures counts { IfOk result (λ counts. counts ≡ turn_counts (plan_of loading.now) bucket) }
    ensures of_net { IfOk result (λ counts.
        All (IsOfNet loading.now.net.now loading.now.horizon bucket) counts) }
{
    let mut turns = gathered(alloc, loading, loaded, bucket)?;
    turns.sort_unstable();
    let counts = counted(alloc, turns.as_slice())?;
    Ok(TurnCounts::of(counts))
}

// Adds the turns of a vehicle that enters links of its route in these steps.
fn add_turns(
    turns: &mut Vec<TimedTurn>,
    route: &[LinkNo],
    entries: &[u32],
    bucket: u32,
) -> Result<(), Memory>
    requires bucket { 1 ≤ bucket }
    requires within { length entries.now ≤ length route.now }
    ensures { OnOk result
        (turns.new.items ≡ turns.old.items ++ turns_along bucket route.now entries.now) }
{
    for place in 1..entries.len() {
        turns.push(TimedTurn {
            a: route[place - 1].0,
            b: route[place].0,
            bucket: entries[place] / bucket,
        })?;
    }
    Ok(())
}

// Adds the turns of a vehicle.
fn add_vehicle(
    turns: &mut Vec<TimedTurn>,
    loading: &Loading,
    loaded: &Loaded,
    bucket: u32,
    vehicle: u32,
) -> Result<(), Memory>
    requires sound { IsSound (plan_of loading.now) }
    requires loaded { loaded.now ≡ journeys_of (plan_of loading.now) }
    requires bucket { 1 ≤ bucket }
    requires vehicle { vehicle < length loading.now.trips.now }
    ensures { OnOk result (AreAdded (plan_of loading.now) bucket
        (moves_of vehicle (trace_after (plan_of loading.now) loading.now.horizon))
        turns.old.items turns.new.items) }
{
    match loading.routes.get(vehicle) {
        Some(route) => {
            let journey = loaded.get(vehicle);
            add_turns(turns, route.as_slice(), journey.entries.as_slice(), bucket)
        }
        None => Ok(()),
    }
}

// The turns of all vehicles.
fn gathered(
    alloc: Global,
    loading: &Loading,
    loaded: &Loaded,
    bucket: u32,
) -> Result<Vec<TimedTurn>, Memory>
    requires sound { IsSound (plan_of loading.now) }
    requires loaded { loaded.now ≡ journeys_of (plan_of loading.now) }
    requires bucket { 1 ≤ bucket }
    ensures { IfOk result (λ turns. AreTurns (plan_of loading.now) bucket
        (length loading.now.trips.now) turns.items) }
{
    let mut turns = Vec::new(alloc);
    for vehicle in 0..loading.trips.len() as u32 {
        add_vehicle(&mut turns, loading, loaded, bucket, vehicle)?;
    }
    Ok(turns)
}

// Whether a count is that of a turn.
fn is_of(count: &TurnCount, turn: TimedTurn) -> bool
    ensures { result ≡ is_count_of turn count.now }
{
    turn.a == count.a.0 && turn.b == count.b.0 && turn.bucket == count.bucket
}

// Counts a turn that is the one counted last, or comes after it.
fn count_turn(counts: &mut Vec<TurnCount>, turn: TimedTurn) -> Result<(), Memory>
    requires { All (λ c. c.vehicles + 1 < 2 ^ 64) counts.old.items }
    ensures { OnOk result (counts.new.items ≡ with_turn turn counts.old.items) }
{
    let many = counts.len();
    if many > 0 && is_of(&counts[many - 1], turn) {
        let last = &mut counts[many - 1];
        last.vehicles += 1;
        return Ok(());
    }
    counts.push(TurnCount {
        a: LinkNo(turn.a),
        b: LinkNo(turn.b),
        bucket: turn.bucket,
        vehicles: 1,
    })?;
    Ok(())
}

// The counts of turns that are in order.
fn counted(alloc: Global, turns: &[TimedTurn]) -> Result<Vec<TurnCount>, Memory>
    requires { IsSorted turn_order turns.now }
    ensures { IfOk result (λ counts. AreTurnCounts turns.now turns.now counts.items) }
{
    let mut counts = Vec::new(alloc);
    for turn in turns {
        count_turn(&mut counts, *turn)?;
    }
    Ok(counts)
}
