// What is left to each zone of a group.
ghost use Rattle.std.specs.Prelude.{◌≡◌, ◌+◌, ◌-◌, ◌*◌, ◌^◌, ◌<◌, ◌≤◌};
ghost use Rattle.labels.specs.Filling.Labels.{far};
ghost use Rattle.labels.specs.Filling.SlotForms.{left_in};

use crate::filling::eight::Eight;
use crate::filling::four::Four;
use crate::filling::no_walk::FAR;
use crate::filling::slots::Slots;
use crate::filling::spare::Spare;
use crate::filling::table_forms::{SlotTable, WideTable};
use std::alloc::Global;

/// The steps that are left to each zone of a group, in the narrowest form that serves.
#[derive(Drop)]
pub(crate) enum LabelTable {
    Short(SlotTable<Eight>),
    Narrow(SlotTable<Four>),
    Wide(WideTable),
}

// The number of rows between that of a step and that of the horizon.
fn rows_back(horizon: u32, step: u64) -> usize
    ensures is { result ≡ horizon - step }
    ensures within { result ≤ horizon }
{
    (horizon as u64).saturating_sub(step) as usize
}

// The place of what stands in the row that is so many rows from the horizon's.
#[tactic(auto, using(crate::proofs::OfFilling::TableFacts::place_inside))]
fn place_in_row(back: usize, horizon: u32, wide: usize, number: usize) -> usize
    requires back { back ≤ horizon }
    requires number { number < wide }
    requires rows { (horizon + 1) * wide < 2 ^ 63 }
    ensures is { result ≡ back * wide + number }
    ensures within { result < (horizon + 1) * wide }
{
    back * wide + number
}

// What is left in a slot.
#[tactic(auto, unfolding(crate::specs::Filling::Labels::rest_in))]
fn slot_at<S: Slots>(slots: &SlotTable<S>, slot: usize, state: u32, step: u64) -> u64
    requires slot { slot < S.SLOTS }
    requires state { state < slots.now.states }
    ensures is { result ≡ left_in S.slot S.FAR slots.now slot state step }
    ensures low { result ≤ far }
{
    let back = rows_back(slots.horizon, step);
    let place = place_in_row(back, slots.horizon, slots.states, state as usize);
    let left = slots.labels[place].label(slot);
    if left < S::FAR { left } else { FAR }
}

// The labels of a table of slots.
fn labels_of<S: Slots>(table: SlotTable<S>) -> Vec<S> {
    let SlotTable {
        states: _,
        horizon: _,
        labels,
    } = table;
    labels
}

impl LabelTable {
    ghost use Rattle.labels.specs.Filling.Tables.{places, rests, states_in};

    /// What is left from a state at a step to the zone at a place.
    pub(crate) fn rest_at(&self, place: usize, state: u32, step: u64) -> u64
        requires place { place < places self.now }
        requires state { state < states_in self.now }
        ensures is { result ≡ rests self.now place state step }
        ensures low { result ≤ far }
    {
        match self {
            LabelTable::Short(slots) => slot_at(slots, place, state, step),
            LabelTable::Narrow(slots) => slot_at(slots, place, state, step),
            LabelTable::Wide(tables) => slot_at(&tables.zones[place], 0, state, step),
        }
    }

    /// Its memory, where that is of slots.
    pub(crate) fn into_spare(self, alloc: Global) -> Spare {
        match self {
            LabelTable::Short(slots) => Spare {
                short: labels_of(slots),
                narrow: Vec::new(alloc),
            },
            LabelTable::Narrow(slots) => Spare {
                short: Vec::new(alloc),
                narrow: labels_of(slots),
            },
            LabelTable::Wide(_) => Spare::none(alloc),
        }
    }
}
