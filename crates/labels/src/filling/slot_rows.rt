// What is left to each zone of a group, side by side in slots.
ghost use Rattle.std.specs.Prelude.{◌≡◌, ◌≢◌, ℕ, ◌+◌, ◌*◌, ◌<◌, ◌≤◌, length, map, min};
ghost use Rattle.std.specs.Prelude.{slice_index, get_or, All, IfOk};
ghost use Rattle.std.specs.Prelude.{[]};
ghost use Rattle.labels.specs.Filling.Labels.{in_slot};
ghost use Rattle.labels.specs.Filling.Slots.{AreSlotRows, AreSlotsLeft};
ghost use Rattle.labels.specs.Filling.Tails.{AreTails, FitsBelow, IsPut};
ghost use Rattle.labels.specs.Filling.Timed.{horizon_of, states_of, time_in};
ghost use Rattle.labels.specs.States.Spans.{AreShortAt};
ghost use Rattle.labels.specs.ToZone.{zone_numbers};
ghost use Rattle.labels.specs.declared.states.zone_numbers.TheConstants.{NO_ZONE};
ghost use Rattle.trip_costs.specs.WalkCosts.{table_in};

use crate::filling::slot_fill::{fill_slots, grow};
use crate::filling::slots::Slots;
use crate::filling::table_forms::SlotTable;
use crate::filling::timed_router::TimedRouter;
use crate::states::spans::Span;
use net_core::{Memory, ZoneNo};
use std::alloc::Global;

const NO_SPAN: Span = Span { time: 0, to: 0 };

// Writes a tail into a slot of the first row.
fn put_tail<S: Slots>(labels: &mut [S], tail: &[u64], slot: usize)
    requires slot { slot < S.SLOTS }
    requires many { length tail.now ≤ length labels.old }
    ensures many { length labels.new ≡ length labels.old }
    ensures put { IsPut S.FAR (in_slot S.slot labels.new slot) tail.now }
    ensures other { (s j : ℕ) → j < S.SLOTS → j ≢ slot
        → slice_index (in_slot S.slot labels.new j) s
        ≡ slice_index (in_slot S.slot labels.old j) s }
{
    for state in 0..tail.len() {
        let left = tail[state].min(S::FAR);
        labels[state] = labels[state].with(slot, left);
    }
}

// Writes the tail of each zone into its slot.
fn put_tails<S: Slots>(labels: &mut [S], tails: &[Vec<u64>])
    requires few { length tails.now ≤ S.SLOTS }
    requires many { All (λ tail. length tail.items ≤ length labels.old) tails.now }
    ensures many { length labels.new ≡ length labels.old }
    ensures put { (j : ℕ) → j < length tails.now → IsPut S.FAR (in_slot S.slot labels.new j)
        (get_or (map (λ tail. tail.items) tails.now) j []) }
{
    for slot in 0..tails.len() {
        put_tail(labels, tails[slot].as_slice(), slot);
    }
}

// Labels that are there, where they are so many, or none yet with room for as many.
fn room_for<S: Slots>(alloc: Global, room: Vec<S>, count: usize) -> Result<Vec<S>, Memory> {
    if room.len() == count {
        return Ok(room);
    }
    Ok(Vec::with_capacity(alloc, count)?)
}

// Labels with the tail of each zone in the first row, and those of the other rows as they come.
fn begun_of<S: Slots>(
    alloc: Global,
    timed: &TimedRouter,
    tails: &[Vec<u64>],
    room: Vec<S>,
) -> Result<Vec<S>, Memory>
    requires few { length tails.now ≤ S.SLOTS }
    requires states { All (λ tail. length tail.items ≡ states_of timed.now) tails.now }
    ensures row { IfOk result (λ labels. states_of timed.now ≤ length labels.items) }
    ensures put { IfOk result (λ labels. (j : ℕ) → j < length tails.now
        → IsPut S.FAR (in_slot S.slot labels.items j)
        (get_or (map (λ tail. tail.items) tails.now) j [])) }
{
    let rows = timed.costs.horizon() as usize + 1;
    let states = timed.router.state_count();
    let mut labels = room_for(alloc, room, rows * states)?;
    grow(&mut labels, states)?;
    put_tails(labels.as_mut_slice(), tails);
    Ok(labels)
}

// Fills all rows over their first.
fn filled_over<S: Slots>(
    alloc: Global,
    mut labels: Vec<S>,
    timed: &TimedRouter,
    zones: &[ZoneNo],
) -> Result<Vec<S>, Memory>
    requires short { (e : ℕ) → AreShortAt (time_in timed.now) S.FAR e
        timed.now.router.now.ways.items }
    requires few { length zones.now ≤ S.SLOTS }
    requires zones { All (λ z. z.0 < NO_ZONE) zones.now }
    requires row { states_of timed.now ≤ length labels.items }
    ensures many { IfOk result (λ filled. (horizon_of timed.now + 1) * states_of timed.now ≤ length
        filled.items) }
    ensures rows { IfOk result (λ filled. AreSlotRows S.slot (time_in timed.now) S.FAR
        timed.now.router.now (horizon_of timed.now) (zone_numbers zones.now) labels.items
        filled.items 0) }
{
    let mut spans = Vec::from_elem(alloc, NO_SPAN, timed.router.ways.len())?;
    fill_slots(alloc, &mut labels, spans.as_mut_slice(), timed, zones)?;
    Ok(labels)
}

/// What is left to each zone of a group over the costs, in slots over their tails, and
/// over labels that are read no more where they are as many.
pub(crate) fn slot_rows<S: Slots>(
    alloc: Global,
    timed: &TimedRouter,
    zones: &[ZoneNo],
    tails: &[Vec<u64>],
    most: u64,
    room: Vec<S>,
) -> Result<SlotTable<S>, Memory>
    requires few { length zones.now ≤ S.SLOTS }
    requires zones { All (λ z. z.0 < NO_ZONE) zones.now }
    requires tails { AreTails (table_in timed.now.costs).free timed.now.router.now most
        (map (λ tail. tail.items) tails.now) (zone_numbers zones.now) }
    requires fits { FitsBelow (time_in timed.now) (horizon_of timed.now) timed.now.router.now most
        S.FAR }
    ensures states { IfOk result (λ table. table.states ≡ states_of timed.now) }
    ensures left { IfOk result (λ table. AreSlotsLeft S.slot (time_in timed.now) S.FAR
        timed.now.router.now table.horizon (zone_numbers zones.now) table.labels.items) }
{
    let horizon = timed.costs.horizon();
    let begun = begun_of(alloc, timed, tails, room)?;
    let labels = filled_over(alloc, begun, timed, zones)?;
    Ok(SlotTable {
        states: timed.router.state_count(),
        horizon,
        labels,
    })
}
