// Answers by those of other vehicles between the same zones.
ghost use Rattle.std.specs.Prelude.{◌≡◌, ◌<◌, length, true, All, IfOk, IfSome};
ghost use Rattle.time_routes.specs.Searches.{IsRightAnswer, IsServedBy};

use crate::answers::{Answer, Gathered};
use crate::search::Search;
use crate::vehicles::Ask;
use dta_model::{Route, Trip};
use net_core::Memory;
use std::alloc::Global;

// Whether trips lead between the same zones from the same step.
fn lead_alike(trip: &Trip, other: &Trip) -> bool
    ensures { result ≡ true → (trip.now.origin ≡ other.now.origin)
        × (trip.now.destination ≡ other.now.destination)
        × (trip.now.departure ≡ other.now.departure) }
{
    trip.departure == other.departure
        && trip.origin == other.origin
        && trip.destination == other.destination
}

// Whether what is asked was asked before.
fn is_asked(ask: Ask, before: Ask) -> bool
    ensures least { result ≡ true → ask.least ≡ true → before.least ≡ true }
    ensures walk { result ≡ true → ask.walk ≡ true → before.walk ≡ true }
{
    (before.least || !ask.least) && (before.walk || !ask.walk)
}

// A copy of a walk, if it is asked.
fn copy_if(alloc: Global, asked: bool, walk: &Option<Route>) -> Result<Option<Route>, Memory>
    ensures { asked ≡ true → IfOk result (λ copy. copy ≡ walk.now) }
{
    match walk {
        Some(route) if asked => Ok(Some(Route::of(Vec::from_slice(alloc, route.as_slice())?))),
        _ => Ok(None),
    }
}

/// Notes that the next answer is searched from a zone.
pub(crate) fn note_searched(gathered: &mut Gathered, zone: u32)
    ensures { gathered.new.answers ≡ gathered.old.answers }
{
    let next = gathered.answers.len();
    if let Some(place) = gathered.searched.get_mut(zone as usize) {
        *place = next;
    }
}

impl<'a> Search<'a> {
    // Whether the answer of one vehicle is right of another.
    fn serves(&self, earlier: u32, vehicle: u32) -> bool
        requires earlier { earlier < length self.now.trips.now }
        requires vehicle { vehicle < length self.now.trips.now }
        ensures { result ≡ true → IsServedBy self.now earlier vehicle }
    {
        lead_alike(&self.trips[earlier as usize], &self.trips[vehicle as usize])
            && is_asked(self.asks[vehicle as usize], self.asks[earlier as usize])
    }

    // What is answered of a vehicle by an answer that serves.
    fn answer_by(&self, alloc: Global, earlier: &Answer, vehicle: u32) -> Result<Answer, Memory>
        requires vehicle { vehicle < length self.now.trips.now }
        requires right { IsRightAnswer self.now earlier.now }
        requires serves { IsServedBy self.now earlier.now.vehicle vehicle }
        ensures of { IfOk result (λ answer. answer.vehicle ≡ vehicle) }
        ensures right { IfOk result (IsRightAnswer self.now) }
    {
        let walk = copy_if(alloc, self.asks[vehicle as usize].walk, &earlier.walk)?;
        Ok(Answer {
            vehicle,
            least: earlier.least,
            walk,
        })
    }

    /// What is answered of a vehicle by the answer that was searched last from its zone, if that
    /// serves.
    pub(crate) fn answer_again(
        &self,
        alloc: Global,
        gathered: &Gathered,
        vehicle: u32,
    ) -> Result<Option<Answer>, Memory>
        requires vehicle { vehicle < length self.now.trips.now }
        requires right { All (IsRightAnswer self.now) gathered.now.answers.items }
        ensures of { IfOk result (λ found. IfSome found (λ answer. answer.vehicle ≡ vehicle)) }
        ensures right { IfOk result (λ found. IfSome found (IsRightAnswer self.now)) }
    {
        if let Some(place) = gathered
            .searched
            .get(self.origins[vehicle as usize] as usize)
        {
            if let Some(earlier) = gathered.answers.get(*place) {
                if self.serves(earlier.vehicle, vehicle) {
                    return Ok(Some(self.answer_by(alloc, earlier, vehicle)?));
                }
            }
        }
        Ok(None)
    }
}
