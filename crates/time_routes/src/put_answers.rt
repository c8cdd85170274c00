// Answers, put in the order of vehicles.
ghost use Rattle.std.specs.Prelude.{◌≡◌, ◌<◌, length, cond, slice_set, All};
ghost use Rattle.time_routes.specs.Destinations.{asks_least, asks_walk};
ghost use Rattle.time_routes.specs.Answers.{answered};
ghost use Rattle.time_routes.specs.Searches.{IsRightAnswer, TellsMore};
ghost use Rattle.time_routes.specs.Tell.{AreAsMany, Stands};

use crate::answers::Answer;
use crate::search::Search;
use crate::vehicles::Told;

// Puts what is told of a vehicle in its place, if it was asked.
fn put_if<T: Drop>(asked: bool, vehicle: u32, told: T, all: &mut Vec<T>)
    requires { vehicle < length all.old.items }
    ensures { all.new.items ≡ cond asked (slice_set all.old.items vehicle told) all.old.items }
{
    if asked {
        all[vehicle as usize] = told;
    }
}

// Puts the answer of a vehicle in its places, in what is asked of it.
fn put(search: &Search, answer: Answer, told: &mut Told)
    requires right { IsRightAnswer search.now answer }
    requires told { AreAsMany told.old (length search.now.trips.now) }
    ensures many { AreAsMany told.new (length search.now.trips.now) }
    ensures put { TellsMore search.now (λ v. v ≡ answer.vehicle) told.old told.new }
{
    let Answer {
        vehicle,
        least,
        walk,
    } = answer;
    let ask = search.asks[vehicle as usize];
    put_if(ask.least, vehicle, least, &mut told.leasts);
    put_if(ask.walk, vehicle, walk, &mut told.walks);
}

/// Puts right answers in the places of their vehicles, in what is asked of each.
pub(crate) fn put_answers(search: &Search, answers: Vec<Answer>, told: &mut Told)
    requires right { All (IsRightAnswer search.now) answers.items }
    requires told { AreAsMany told.old (length search.now.trips.now) }
    ensures many { AreAsMany told.new (length search.now.trips.now) }
    ensures put { TellsMore search.now (Stands (answered answers.items)) told.old told.new }
{
    for answer in answers {
        put(search, answer, told);
    }
}
