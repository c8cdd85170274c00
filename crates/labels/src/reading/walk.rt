// Chosen walks by what is left.
ghost use Rattle.std.specs.Prelude.{◌≡◌, ℕ, ◌+◌, ◌<◌, ◌^◌, List, length, All, Option};
ghost use Rattle.std.specs.Prelude.{None, Some, IfOk, OnOk, MatchOption, slice_get};
ghost use Rattle.std.specs.Prelude.{Bool};
ghost use Rattle.dta_model.specs.Plans.{link_numbers};
ghost use Rattle.labels.specs.Filling.Labels.{far};
ghost use Rattle.labels.specs.Reading.Paths.{path_time, IsChosenPath, IsLeastPath};
ghost use Rattle.labels.specs.Reading.FirstLinks.{AreFirsts};
ghost use Rattle.labels.specs.Filling.Rests.{over, least_over, IsPick};
ghost use Rattle.labels.specs.Reading.Serves.{FirstOver};
ghost use Rattle.labels.specs.Reading.Serves.{IsFollowed};
ghost use Rattle.labels.specs.States.RouterWays.{state_of};
ghost use Rattle.labels.specs.Reading.OfZone.{AreFit, AreServed, label_to, rest_to};
ghost use Rattle.labels.specs.Reading.OfZone.{ways_in};
ghost use Rattle.labels.specs.Filling.Tables.{places, states_in};
ghost use Rattle.trip_costs.specs.WalkCosts.{AreTimed, enter_in, steps_in, table_in};

use crate::reading::found::Walk;
use crate::reading::least::best_of;
use crate::reading::zone_labels::ZoneLabels;
use crate::states::onward::Onward;
use crate::states::spans::span_of;
use dta_model::Route;
use net_core::LinkNo;
use std::alloc::{AllocError, Global};

// The time over a way on.
#[tactic(auto, unfolding(crate::specs::Filling::Rests::over))]
fn over_at(labels: &ZoneLabels, way: &Onward, step: u64) -> u64
    requires place { labels.now.place < places labels.now.table.now }
    requires to { way.now.to < states_in labels.now.table.now }
    requires timed { AreTimed labels.now.costs }
    requires link { way.now.link < length (table_in labels.now.costs).free }
    requires step { step < 2 ^ 63 }
    ensures { result ≡ over (steps_in labels.now.costs) far (rest_to labels.now) step way.now }
{
    let span = span_of(labels.costs, step, way);
    labels.table.rest_at(labels.place, way.to, step + span) + span
}

// The first way on that takes a time.
fn pick(labels: &ZoneLabels, ways: &[Onward], step: u64, left: u64) -> Option<Onward>
    requires place { labels.now.place < places labels.now.table.now }
    requires to { All (λ w. w.to < states_in labels.now.table.now) ways.now }
    requires timed { AreTimed labels.now.costs }
    requires link { All (λ w. w.link < length (table_in labels.now.costs).free) ways.now }
    requires step { step < 2 ^ 63 }
    ensures { FirstOver (over (steps_in labels.now.costs) far (rest_to labels.now) step) ways.now
        left result }
{
    for way in ways {
        if over_at(labels, way, step) == left {
            return Some(*way);
        }
    }
    None
}

// The way on that gives what is left.
fn next_way(labels: &ZoneLabels, ways: &[Onward], step: u64, left: u64) -> Onward
    requires place { labels.now.place < places labels.now.table.now }
    requires to { All (λ w. w.to < states_in labels.now.table.now) ways.now }
    requires timed { AreTimed labels.now.costs }
    requires link { All (λ w. w.link < length (table_in labels.now.costs).free) ways.now }
    requires step { step < 2 ^ 63 }
    requires left { (left < far) × (left ≡ least_over (steps_in labels.now.costs) far (rest_to
        labels.now) step ways.now) }
    ensures { IsPick (steps_in labels.now.costs) far (rest_to labels.now) ways.now step left
        result }
{
    match pick(labels, ways, step, left) {
        Some(way) => way,
        None => unreachable!(),
    }
}

// Gathers the links of the walk that follows the labels from a link at a step.
fn follow(
    links: &mut Vec<LinkNo>,
    labels: &ZoneLabels,
    first: u32,
    step: u64,
) -> Result<(), AllocError>
    requires timed { AreTimed labels.now.costs }
    requires fit { AreFit labels.now }
    requires serves { AreServed labels.now }
    requires first { first < length (table_in labels.now.costs).free }
    requires step { step < 2 ^ 40 }
    requires near { rest_to labels.now (state_of labels.now.router.now first) (step + steps_in
        labels.now.costs first step) < far }
    ensures { OnOk result (IsFollowed (ways_in labels.now) (label_to labels.now) first step
        (link_numbers links.new.items)) }
{
    let router = labels.router;
    links.clear();
    links.push(LinkNo(first))?;
    let mut link = first;
    let mut entry = step;
    while !router.is_in(router.state(link) as usize, labels.zone) {
        let state = router.state(link);
        let start = entry + labels.costs.steps(LinkNo(link), entry) as u64;
        let left = labels.table.rest_at(labels.place, state, start);
        let way = next_way(labels, router.ways_on(state as usize), start, left);
        link = way.link;
        entry = start + way.wait as u64;
        links.push(LinkNo(link))?;
    }
    Ok(())
}

/// The walk from one of some links that the labels choose, at a step. Its links are gathered in a
/// list that serves the next walk too, so that memory is asked for once, and for as many links.
pub(crate) fn walk_of(
    alloc: Global,
    links: &mut Vec<LinkNo>,
    labels: &ZoneLabels,
    firsts: &[u32],
    step: u64,
) -> Result<Option<Walk>, AllocError>
    requires timed { AreTimed labels.now.costs }
    requires fit { AreFit labels.now }
    requires serves { AreServed labels.now }
    requires firsts { All (λ l. l < length (table_in labels.now.costs).free) firsts.now }
    requires rising { (i k a b : ℕ) → i < k → slice_get firsts.now i ≡ Some a
        → slice_get firsts.now k ≡ Some b → a < b }
    requires step { step < 2 ^ 40 }
    ensures { (begins : ℕ → Bool) → AreFirsts begins firsts.now → IfOk result (λ o. MatchOption o
        ((w : List ℕ) → path_time (ways_in labels.now) (enter_in labels.now.costs) begins step w
        ≡ None) (λ walk. IsLeastPath (ways_in labels.now) (enter_in labels.now.costs) begins step
        walk.time × IsChosenPath (ways_in labels.now) (enter_in labels.now.costs) begins step
        (link_numbers walk.route))) }
{
    match best_of(labels, firsts, step) {
        None => Ok(None),
        Some(first) => {
            let entry = labels.costs.enter(LinkNo(first.link), step);
            follow(links, labels, first.link, entry)?;
            let route = Route::of(Vec::from_slice(alloc, links)?);
            Ok(Some(Walk {
                time: first.time,
                route,
            }))
        }
    }
}
