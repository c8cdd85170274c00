// What is seen of a loading: its journeys, written out.
ghost use Rattle.std.specs.Prelude.{◌≡◌, IfOk, IsTrue, map};
ghost use Rattle.worked_cases.specs.Seen.{journey_seen};

use dta_model::{Journey, Loaded, Steps};
use net_core::Memory;
use std::alloc::Global;

/// The steps of a vehicle's entries, and of its arrival.
#[derive(Clone, Copy, Drop)]
pub struct Seen<'a>(pub &'a [u32], pub Option<u32>);

/// The journeys that are written out.
pub fn journeys(alloc: Global, seen: &[Seen]) -> Result<Loaded, Memory>
    ensures { IfOk result (λ loaded. loaded ≡ map journey_seen seen.now) }
{
    let mut journeys = Vec::new(alloc);
    for i in 0..seen.len() {
        let entries = Vec::from_slice(alloc, seen[i].0)?;
        journeys.push(Journey {
            entries: Steps::of(entries),
            arrival: seen[i].1,
        })?;
    }
    Ok(Loaded::of(journeys))
}

/// Whether a loading gives these journeys.
pub fn are_seen(loaded: &Loaded, seen: &[Seen]) -> bool
    ensures { IsTrue result → loaded.now ≡ map journey_seen seen.now }
{
    let journeys = loaded.as_slice();
    if journeys.len() != seen.len() {
        return false;
    }
    for i in 0..journeys.len() {
        if !is_seen(&journeys[i], &seen[i]) {
            return false;
        }
    }
    true
}

fn is_seen(journey: &Journey, seen: &Seen) -> bool
    ensures { IsTrue result → journey.now ≡ journey_seen seen.now }
{
    journey.entries.as_slice() == seen.0 && journey.arrival == seen.1
}
