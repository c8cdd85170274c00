// What is left to a few zones side by side, step by step from the horizon down.
ghost use Rattle.std.specs.Prelude.{◌≡◌, ℕ, ◌+◌, ◌-◌, ◌*◌, ◌<◌, ◌≤◌, ◌^◌, length, slice_index, All};
ghost use Rattle.std.specs.Prelude.{cond, nat_eq, slice_set, OnOk};
ghost use Rattle.std.specs.List.{slice_range};
ghost use Rattle.labels.specs.Filling.Labels.{in_slot, rest_in, value};
ghost use Rattle.labels.specs.Filling.Rests.{span, least_over};
ghost use Rattle.labels.specs.Filling.Slots.{AreSlotsTo, AreSlotRows};
ghost use Rattle.labels.specs.Filling.Timed.{horizon_of, states_of, time_in};
ghost use Rattle.labels.specs.States.Spans.{AreShortAt, AreShortSpans, IsSpans};
ghost use Rattle.labels.specs.ToZone.{zone_numbers};
ghost use Rattle.labels.specs.declared.states.zone_numbers.TheConstants.{NO_ZONE};
ghost use Rattle.trip_costs.specs.WalkCosts.{steps_in, table_in};

use crate::filling::slots::Slots;
use crate::filling::timed_router::TimedRouter;
use crate::states::onward::Onward;
use crate::states::router::Router;
use crate::states::spans::{Span, keep};
use crate::states::zone_numbers::NO_ZONE;
use net_core::{Memory, ZoneNo};
use std::alloc::Global;
use trip_costs::WalkCosts;

/// The row of a step: how many states it has, how many rows it stands from the horizon's, its
/// step, the costs of links, and the zones of the slots.
#[derive(Clone, Copy, Drop)]
struct SlotRow<'a> {
    states: usize,
    back: usize,
    step: u32,
    costs: WalkCosts<'a>,
    zones: &'a [ZoneNo],
    ghost later: { 0 < back },
    ghost counted: { back + step ≡ (table_in costs).horizon },
    ghost numbers: { All (λ z. z.0 < NO_ZONE) zones.now },
}

// The place of what is left after a span.
fn place_after(states: usize, back: usize, span: u64, to: u32) -> usize
    requires span { 0 < span }
    requires inside { to < states }
    requires back { 0 < back }
    requires fits { back * states < 2 ^ 63 }
    ensures is { result ≡ (back - span) * states + to }
    ensures low { result < back * states }
{
    back.saturating_sub(span as usize) * states + to as usize
}

// The least over the ways on, in each slot.
fn least_slots<S: Slots>(labels: &[S], row: &SlotRow, spans: &[Span], ways: &[Onward]) -> S
    requires spans { IsSpans (steps_in row.now.costs) row.now.step ways.now spans.now }
    requires short { AreShortSpans S.FAR row.now.states spans.now }
    requires rows { row.now.back * row.now.states ≤ length labels.now }
    requires fits { row.now.back * row.now.states < 2 ^ 63 }
    ensures { (j : ℕ) → j < S.SLOTS → S.slot result j ≡ least_over (steps_in row.now.costs) S.FAR
        (rest_in row.now.states (table_in row.now.costs).horizon (in_slot S.slot labels.now j))
        row.now.step ways.now }
{
    let mut least = S::no_walk();
    for span in spans {
        let place = place_after(row.states, row.back, span.time, span.to);
        least = least.or_after(labels[place], span.time);
    }
    least
}

// The same labels, but nothing in a slot where that is wanted.
fn none_at<S: Slots>(labels: S, place: usize, wanted: bool) -> S
    requires { place < S.SLOTS }
    ensures { (j : ℕ) → j < S.SLOTS → S.slot result j
        ≡ cond wanted (cond (nat_eq j place) 0 (S.slot labels j)) (S.slot labels j) }
{
    if wanted {
        labels.with(place, 0)
    } else {
        labels
    }
}

// The same labels, but nothing in the slots of a zone.
fn none_at_own<S: Slots>(least: S, zone: u32, zones: &[ZoneNo]) -> S
    requires { length zones.now ≤ S.SLOTS }
    ensures { (j : ℕ) → j < length zones.now → S.slot result j
        ≡ cond (nat_eq zone (slice_index (zone_numbers zones.now) j)) 0 (S.slot least j) }
{
    let mut own = least;
    for place in 0..zones.len() {
        own = none_at(own, place, zone == zones[place].0);
    }
    own
}

// Nothing in the slots of a state's zone, else the least.
fn unless_own<S: Slots>(least: S, zone: u32, zones: &[ZoneNo]) -> S
    requires few { length zones.now ≤ S.SLOTS }
    requires zones { All (λ z. z.0 < NO_ZONE) zones.now }
    ensures { (j : ℕ) → j < length zones.now → S.slot result j
        ≡ cond (nat_eq zone (slice_index (zone_numbers zones.now) j)) 0 (S.slot least j) }
{
    if zone == NO_ZONE {
        least
    } else {
        none_at_own(least, zone, zones)
    }
}

// Writes what is left from a state, in each slot.
fn fill_state<S: Slots>(
    labels: &mut [S],
    row: &SlotRow,
    spans: &[Span],
    state: usize,
    zone: u32,
    ways: &[Onward],
)
    requires spans { IsSpans (steps_in row.now.costs) row.now.step ways.now spans.now }
    requires short { AreShortSpans S.FAR row.now.states spans.now }
    requires rows { row.now.back * row.now.states + row.now.states ≤ length labels.old }
    requires fits { row.now.back * row.now.states + row.now.states < 2 ^ 63 }
    requires state { state < row.now.states }
    requires few { length row.now.zones.now ≤ S.SLOTS }
    ensures many { length labels.new ≡ length labels.old }
    ensures written { (j : ℕ) → j < length row.now.zones.now → in_slot S.slot labels.new j
        ≡ slice_set (in_slot S.slot labels.old j) (row.now.back * row.now.states + state) (value
        (steps_in row.now.costs) S.FAR row.now.states (table_in row.now.costs).horizon
        (in_slot S.slot labels.old j) (nat_eq zone (slice_index (zone_numbers row.now.zones.now) j))
        ways.now row.now.step) }
{
    let least = least_slots(labels, row, spans, ways);
    labels[row.back * row.states + state] = unless_own(least, zone, row.zones);
}

// The spans of the ways on from a state.
fn spans_on<'s>(router: &Router, spans: &'s [Span], state: usize) -> &'s [Span]
    requires many { length spans.now ≡ length router.now.ways.items }
    requires state { state < length router.now.zones.items }
    ensures { result.now ≡ slice_range spans.now (slice_index router.now.starts.items state)
        (slice_index router.now.starts.items (state + 1)) }
{
    let from = router.starts[state];
    let to = router.starts[state + 1];
    &spans[from..to]
}

// Writes the row of a step.
fn fill_row<S: Slots>(
    labels: &mut [S],
    back: usize,
    timed: &TimedRouter,
    spans: &[Span],
    step: u32,
    zones: &[ZoneNo],
)
    requires short { AreShortAt (time_in timed.now) S.FAR step timed.now.router.now.ways.items }
    requires spans { IsSpans (time_in timed.now) step timed.now.router.now.ways.items spans.now }
    requires rows { back * states_of timed.now + states_of timed.now ≤ length labels.old }
    requires fits { back * states_of timed.now + states_of timed.now < 2 ^ 63 }
    requires back { (0 < back) × (back + step ≡ horizon_of timed.now) }
    requires few { length zones.now ≤ S.SLOTS }
    requires zones { All (λ z. z.0 < NO_ZONE) zones.now }
    ensures many { length labels.new ≡ length labels.old }
    ensures filled { AreSlotsTo S.slot (time_in timed.now) S.FAR timed.now.router.now (horizon_of
        timed.now) (zone_numbers zones.now) labels.old labels.new back step (states_of timed.now) }
{
    let states = timed.router.state_count();
    let row = SlotRow {
        states,
        back,
        step,
        costs: timed.costs,
        zones,
    };
    for state in 0..states {
        fill_state(
            labels,
            &row,
            spans_on(timed.router, spans, state),
            state,
            timed.router.zone(state),
            timed.router.ways_on(state),
        );
    }
}

/// Adds labels until there are so many; those that are there stay.
pub(crate) fn grow<S: Slots>(labels: &mut Vec<S>, count: usize) -> Result<(), Memory>
    ensures many { OnOk result (count ≤ length labels.new.items) }
    ensures stay { OnOk result ((j k : ℕ) → k < length labels.old.items
        → slice_index (in_slot S.slot labels.new.items j) k
        ≡ slice_index (in_slot S.slot labels.old.items j) k) }
{
    'each: while labels.len() < count {
        labels.push(S::no_walk())?;
    }
    Ok(())
}

/// Writes the row of each step from the last before the horizon down to the first, behind the
/// horizon's. A row that isn't there yet is added as its turn comes, so that it is filled while
/// the processor's cache still holds it.
pub(crate) fn fill_slots<S: Slots>(
    alloc: Global,
    labels: &mut Vec<S>,
    spans: &mut [Span],
    timed: &TimedRouter,
    zones: &[ZoneNo],
) -> Result<(), Memory>
    requires short { (e : ℕ) → AreShortAt (time_in timed.now) S.FAR e
        timed.now.router.now.ways.items }
    requires spans { length spans.old ≡ length timed.now.router.now.ways.items }
    requires row { states_of timed.now ≤ length labels.old.items }
    requires few { length zones.now ≤ S.SLOTS }
    requires zones { All (λ z. z.0 < NO_ZONE) zones.now }
    ensures many { OnOk result ((horizon_of timed.now + 1) * states_of timed.now ≤ length
        labels.new.items) }
    ensures filled { OnOk result (AreSlotRows S.slot (time_in timed.now) S.FAR timed.now.router.now
        (horizon_of timed.now) (zone_numbers zones.now) labels.old.items labels.new.items 0) }
{
    let horizon = timed.costs.horizon();
    let states = timed.router.state_count();
    let mut moving = Vec::new(alloc);
    let mut step = horizon;
    while step > 0 {
        step -= 1;
        let back = (horizon - step) as usize;
        grow(labels, back * states + states)?;
        keep(spans, &mut moving, timed.costs, step, timed.router)?;
        fill_row(labels.as_mut_slice(), back, timed, spans, step, zones);
    }
    Ok(())
}
