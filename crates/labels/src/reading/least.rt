// Least times by what is left.
ghost use Rattle.std.specs.Prelude.{◌≡◌, ℕ, ◌+◌, ◌<◌, ◌^◌, List, length, All, Some};
ghost use Rattle.std.specs.Prelude.{slice_get};
ghost use Rattle.labels.specs.Reading.Serves.{BestSoFar, IsBelow};
ghost use Rattle.labels.specs.Reading.OfZone.{AreFit, first_to};
ghost use Rattle.trip_costs.specs.WalkCosts.{table_in};

use crate::filling::no_walk::FAR;
use crate::reading::best::First;
use crate::reading::zone_labels::ZoneLabels;
use net_core::LinkNo;

/// The time from a step on over a first link, from the step to its entry and from there on, where
/// there is a walk and it takes less than a number. What is left is looked up only where the link
/// by itself takes less.
pub(crate) fn first_below(labels: &ZoneLabels, link: u32, step: u64, most: u64) -> Option<u64>
    requires fit { AreFit labels.now }
    requires link { link < length (table_in labels.now.costs).free }
    requires step { step < 2 ^ 40 }
    ensures below { IsBelow (first_to labels.now step link) most result }
    ensures low { (x : ℕ) → first_to labels.now step link ≡ Some x → x < 2 ^ 62 + 2 ^ 40 }
{
    let entry = labels.costs.enter(LinkNo(link), step);
    let time = labels.costs.steps(LinkNo(link), entry) as u64;
    let alone = entry - step + time;
    if alone >= most {
        return None;
    }
    let state = labels.router.state(link);
    let rest = labels.table.rest_at(labels.place, state, entry + time);
    if rest < FAR && alone + rest < most {
        Some(alone + rest)
    } else {
        None
    }
}

// The better of the best link so far and another one, which comes after it.
fn better(labels: &ZoneLabels, best: Option<First>, link: u32, step: u64) -> Option<First>
    requires fit { AreFit labels.now }
    requires link { link < length (table_in labels.now.costs).free }
    requires step { step < 2 ^ 40 }
    ensures { (firsts : List ℕ) (count : ℕ) → slice_get firsts count ≡ Some link
        → BestSoFar (first_to labels.now step) firsts count best
        → BestSoFar (first_to labels.now step) firsts (count + 1) result }
{
    let most = match best {
        Some(first) => first.time,
        None => u64::MAX,
    };
    match first_below(labels, link, step, most) {
        Some(time) => Some(First { link, time }),
        None => best,
    }
}

/// The first of some links over which the least time from a step on is met.
pub(crate) fn best_of(labels: &ZoneLabels, firsts: &[u32], step: u64) -> Option<First>
    requires fit { AreFit labels.now }
    requires firsts { All (λ l. l < length (table_in labels.now.costs).free) firsts.now }
    requires step { step < 2 ^ 40 }
    ensures { BestSoFar (first_to labels.now step) firsts.now (length firsts.now) result }
{
    let mut best = None;
    for link in firsts {
        best = better(labels, best, *link, step);
    }
    best
}
