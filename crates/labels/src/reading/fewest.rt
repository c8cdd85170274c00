// Walks of the fewest links by what is left: a search over the ways on that meet it exactly.
ghost use Rattle.std.specs.Prelude.{◌≡◌, ℕ, ◌+◌, ◌<◌, ◌≤◌, ◌^◌, List, length, All, Option};
ghost use Rattle.std.specs.Prelude.{None, Some, IfOk, IfSome, OnOk, MatchOption, slice_get, Bool};
ghost use Rattle.dta_model.specs.Plans.{link_numbers};
ghost use Rattle.labels.specs.Filling.Labels.{far};
ghost use Rattle.labels.specs.Filling.Rests.{AreOrdered};
ghost use Rattle.labels.specs.Filling.Tables.{places, states_in};
ghost use Rattle.labels.specs.Reading.FirstLinks.{AreFirsts};
ghost use Rattle.labels.specs.Reading.Fewest.{EndsAt, Puts, IsTried, IsGoneOn, path_to};
ghost use Rattle.labels.specs.Reading.Fewest.{IsTriedFirst, AreStarted};
ghost use Rattle.labels.specs.Reading.OfZone.{AreFit, AreServed, first_to, label_to};
ghost use Rattle.labels.specs.Reading.OfZone.{rest_to, ways_in};
ghost use Rattle.labels.specs.Reading.Paths.{path_time, IsLeastPath, IsFewestPath};
ghost use Rattle.labels.specs.Reading.Searches.{is_among, NoneEnds, FirstEnds};
ghost use Rattle.labels.specs.Reading.SearchesTo.{IsSearchedTo};
ghost use Rattle.labels.specs.States.RouterWays.{state_of};
ghost use Rattle.trip_costs.specs.WalkCosts.{AreTimed, enter_in, steps_in, table_in};

use crate::reading::found::Walk;
use crate::reading::least::{best_of, first_below};
use crate::reading::reached::Reached;
use crate::reading::zone_labels::ZoneLabels;
use crate::states::onward::Onward;
use crate::states::spans::span_of;
use dta_model::Route;
use net_core::LinkNo;
use std::alloc::{AllocError, Global};

/// The list of a search, and for each state the place in it of the last link that ends there. What
/// an earlier search has left there does no harm.
#[derive(Drop)]
pub(crate) struct Search {
    reached: Vec<Reached>,
    last: Vec<usize>,
}

/// What a search looks for: walks of the least time that begin with one of some links in a step.
#[derive(Clone, Copy, Drop)]
struct Aim<'a> {
    firsts: &'a [u32],
    step: u64,
    least: u64,
    ghost near: { step + least < 2 ^ 63 },
}

/// Where a search goes on: a place of its list, the step there and what is left.
#[derive(Clone, Copy, Drop)]
struct Stand {
    place: usize,
    step: u64,
    left: u64,
}

/// The places of a list that so many links lead to.
#[derive(Clone, Copy, Drop)]
struct Layer {
    from: usize,
    to: usize,
    links: u64,
}

impl Search {
    /// A search that has found nothing yet.
    pub(crate) fn new(alloc: Global) -> Self {
        Search {
            reached: Vec::new(alloc),
            last: Vec::new(alloc),
        }
    }
}

// The place of a link that ends in a state at a step, where the search has reached one.
fn place_of(search: &Search, state: u32, step: u64) -> Option<usize>
    ensures { IfSome result (EndsAt search.now.reached.items state step) }
{
    let mut place = match search.last.get(state as usize) {
        Some(place) => *place,
        None => return None,
    };
    'chain: loop {
        match search.reached.get(place) {
            None => return None,
            Some(reached) => {
                if reached.state != state {
                    return None;
                }
                if reached.step == step {
                    return Some(place);
                }
                if place <= reached.older {
                    return None;
                }
                place = reached.older;
            }
        }
    }
}

// Puts a link at the end of the list.
fn put(
    search: &mut Search,
    link: u32,
    state: u32,
    step: u64,
    before: usize,
) -> Result<(), AllocError>
    ensures { OnOk result (Puts search.old.reached.items search.new.reached.items link state step
        before) }
{
    let place = search.reached.len();
    let older = match search.last.get(state as usize) {
        Some(older) => *older,
        None => place,
    };
    search.reached.push(Reached {
        link,
        state,
        step,
        before,
        older,
    })?;
    if (state as usize) < search.last.len() {
        search.last[state as usize] = place;
    }
    Ok(())
}

// Goes on by a way where that meets what is left and no link of the list ends alike.
#[tactic(auto, unfolding(crate::specs::Filling::Rests::over))]
fn go_by(
    search: &mut Search,
    labels: &ZoneLabels,
    stand: &Stand,
    way: &Onward,
) -> Result<(), AllocError>
    requires place { labels.now.place < places labels.now.table.now }
    requires to { way.now.to < states_in labels.now.table.now }
    requires timed { AreTimed labels.now.costs }
    requires link { way.now.link < length (table_in labels.now.costs).free }
    requires step { stand.now.step < 2 ^ 63 }
    ensures { OnOk result (IsTried (steps_in labels.now.costs) far (rest_to labels.now)
        stand.now.place stand.now.step stand.now.left way.now search.old.reached.items
        search.new.reached.items) }
{
    let span = span_of(labels.costs, stand.step, way);
    let step = stand.step + span;
    if labels.table.rest_at(labels.place, way.to, step) + span != stand.left {
        return Ok(());
    }
    match place_of(search, way.to, step) {
        Some(_) => Ok(()),
        None => put(search, way.link, way.to, step, stand.place),
    }
}

// Goes on by each way from a place.
fn go_on(
    search: &mut Search,
    labels: &ZoneLabels,
    stand: &Stand,
    ways: &[Onward],
) -> Result<(), AllocError>
    requires place { labels.now.place < places labels.now.table.now }
    requires to { All (λ w. w.to < states_in labels.now.table.now) ways.now }
    requires timed { AreTimed labels.now.costs }
    requires link { All (λ w. w.link < length (table_in labels.now.costs).free) ways.now }
    requires step { stand.now.step < 2 ^ 63 }
    requires ordered { AreOrdered ways.now }
    ensures { OnOk result (IsGoneOn (steps_in labels.now.costs) far (rest_to labels.now)
        stand.now.place stand.now.step stand.now.left ways.now (length ways.now)
        search.old.reached.items search.new.reached.items) }
{
    for way in ways {
        go_by(search, labels, stand, way)?;
    }
    Ok(())
}

// Goes on from all places that so many links lead to, none of which ends in the zone.
fn go_on_all(
    search: &mut Search,
    labels: &ZoneLabels,
    aim: &Aim,
    layer: &Layer,
) -> Result<(), AllocError>
    requires timed { AreTimed labels.now.costs }
    requires fit { AreFit labels.now }
    requires serves { AreServed labels.now }
    requires none { NoneEnds labels.now.router.now labels.now.zone search.old.reached.items
        layer.now.from layer.now.to }
    requires searched { IsSearchedTo labels.now aim.now.firsts.now aim.now.step aim.now.least
        search.old.reached.items layer.now.from layer.now.to layer.now.links }
    ensures { OnOk result (IsSearchedTo labels.now aim.now.firsts.now aim.now.step aim.now.least
        search.new.reached.items layer.now.to layer.now.to layer.now.links) }
{
    for place in layer.from..layer.to {
        let here = search.reached[place];
        let left = labels.table.rest_at(labels.place, here.state, here.step);
        let stand = Stand {
            place,
            step: here.step,
            left,
        };
        let ways = labels.router.ways_on(here.state as usize);
        go_on(search, labels, &stand, ways)?;
    }
    Ok(())
}

// The first of some places whose link ends in the zone.
fn first_end(search: &Search, labels: &ZoneLabels, from: usize, to: usize) -> Option<usize>
    requires within { to ≤ length search.now.reached.items }
    requires states { All (λ q. q.state < length labels.now.router.now.zones.items)
        search.now.reached.items }
    ensures { FirstEnds labels.now.router.now labels.now.zone search.now.reached.items from to
        result }
{
    for place in from..to {
        let state = search.reached[place].state;
        if labels.router.is_in(state as usize, labels.zone) {
            return Some(place);
        }
    }
    None
}

// The place in the list to which the walk of the fewest links leads.
fn seek(search: &mut Search, labels: &ZoneLabels, aim: &Aim) -> Result<usize, AllocError>
    requires timed { AreTimed labels.now.costs }
    requires fit { AreFit labels.now }
    requires serves { AreServed labels.now }
    requires least { IsLeastPath (ways_in labels.now) (enter_in labels.now.costs) (is_among
        aim.now.firsts.now) aim.now.step aim.now.least }
    requires searched { IsSearchedTo labels.now aim.now.firsts.now aim.now.step aim.now.least
        search.old.reached.items 0 (length search.old.reached.items) 1 }
    ensures within { IfOk result (λ place. place < length search.new.reached.items) }
    ensures fewest { IfOk result (λ place. IsFewestPath (ways_in labels.now) (enter_in
        labels.now.costs) (is_among aim.now.firsts.now) aim.now.step (path_to
        search.new.reached.items place)) }
{
    let mut from = 0;
    for links in 0..aim.least {
        let to = search.reached.len();
        match first_end(search, labels, from, to) {
            Some(place) => return Ok(place),
            None => {}
        }
        let layer = Layer {
            from,
            to,
            links: links + 1,
        };
        go_on_all(search, labels, aim, &layer)?;
        from = to;
    }
    unreachable!()
}

// Gathers the links to a place of the list.
fn links_back(links: &mut Vec<LinkNo>, reached: &[Reached], place: usize) -> Result<(), AllocError>
    requires place { place < length reached.now }
    ensures { OnOk result (link_numbers links.new.items ≡ path_to reached.now place) }
{
    links.clear();
    let mut back = place;
    'back: loop {
        let here = reached[back];
        links.push(LinkNo(here.link))?;
        if back <= here.before {
            links.reverse();
            return Ok(());
        }
        back = here.before;
    }
}

// Puts a first link at the end of the list where the least time is met over it.
fn begin_with(
    search: &mut Search,
    labels: &ZoneLabels,
    aim: &Aim,
    link: u32,
) -> Result<(), AllocError>
    requires timed { AreTimed labels.now.costs }
    requires fit { AreFit labels.now }
    requires link { link < length (table_in labels.now.costs).free }
    requires step { aim.now.step < 2 ^ 40 }
    ensures { OnOk result (IsTriedFirst (steps_in labels.now.costs) (label_to labels.now)
        (enter_in labels.now.costs) (state_of labels.now.router.now) aim.now.step aim.now.least link
        search.old.reached.items search.new.reached.items) }
{
    if first_below(labels, link, aim.step, aim.least + 1) != Some(aim.least) {
        return Ok(());
    }
    let entry = labels.costs.enter(LinkNo(link), aim.step);
    let step = entry + labels.costs.steps(LinkNo(link), entry) as u64;
    let before = search.reached.len();
    put(search, link, labels.router.state(link), step, before)
}

// Makes room for as many states.
fn make_room(alloc: Global, search: &mut Search, states: usize) -> Result<(), AllocError>
    ensures { OnOk result (states ≤ length search.new.last.items) }
{
    if search.last.len() < states {
        search.last = Vec::from_elem(alloc, 0, states)?;
    }
    Ok(())
}

// Begins a list with the first links over which the least time is met.
fn begin(search: &mut Search, labels: &ZoneLabels, aim: &Aim) -> Result<(), AllocError>
    requires timed { AreTimed labels.now.costs }
    requires fit { AreFit labels.now }
    requires firsts { All (λ l. l < length (table_in labels.now.costs).free) aim.now.firsts.now }
    requires rising { (i k a b : ℕ) → i < k → slice_get aim.now.firsts.now i ≡ Some a
        → slice_get aim.now.firsts.now k ≡ Some b → a < b }
    requires step { aim.now.step < 2 ^ 40 }
    ensures { OnOk result (AreStarted (steps_in labels.now.costs) (label_to labels.now)
        (enter_in labels.now.costs) (state_of labels.now.router.now) aim.now.firsts.now aim.now.step
        aim.now.least (length aim.now.firsts.now) search.new.reached.items) }
{
    search.reached.clear();
    for link in aim.firsts {
        begin_with(search, labels, aim, *link)?;
    }
    Ok(())
}

/// The walk from one of some links, at a step, that has the least time, of these the fewest links,
/// and of these comes first. Its links are gathered in a list that serves the next walk too, and
/// the search keeps its memory for the next one.
pub(crate) fn fewest_walk_of(
    alloc: Global,
    links: &mut Vec<LinkNo>,
    search: &mut Search,
    labels: &ZoneLabels,
    firsts: &[u32],
    step: u64,
) -> Result<Option<Walk>, AllocError>
    requires timed { AreTimed labels.now.costs }
    requires fit { AreFit labels.now }
    requires serves { AreServed labels.now }
    requires firsts { All (λ l. l < length (table_in labels.now.costs).free) firsts.now }
    requires rising { (i k a b : ℕ) → i < k → slice_get firsts.now i ≡ Some a
        → slice_get firsts.now k ≡ Some b → a < b }
    requires step { step < 2 ^ 40 }
    ensures { (begins : ℕ → Bool) → AreFirsts begins firsts.now → IfOk result (λ o. MatchOption o
        ((w : List ℕ) → path_time (ways_in labels.now) (enter_in labels.now.costs) begins step w
        ≡ None) (λ walk. IsLeastPath (ways_in labels.now) (enter_in labels.now.costs) begins step
        walk.time × IsFewestPath (ways_in labels.now) (enter_in labels.now.costs) begins step
        (link_numbers walk.route))) }
{
    match best_of(labels, firsts, step) {
        None => Ok(None),
        Some(first) => {
            let aim = Aim {
                firsts,
                step,
                least: first.time,
            };
            make_room(alloc, search, labels.router.state_count())?;
            begin(search, labels, &aim)?;
            let place = seek(search, labels, &aim)?;
            links_back(links, &search.reached, place)?;
            let route = Route::of(Vec::from_slice(alloc, links)?);
            Ok(Some(Walk {
                time: first.time,
                route,
            }))
        }
    }
}
