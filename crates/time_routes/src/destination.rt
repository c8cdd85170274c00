// Vehicles that go to one zone, and their answers.
ghost use Rattle.std.specs.Prelude.{◌≡◌, ◌≢◌, ◌<◌, length, slice_index, true, All, IfOk, OnOk};
ghost use Rattle.net_core.specs.Network.{zones};
ghost use Rattle.labels.specs.Named.{zone_named};
ghost use Rattle.labels.specs.ToZone.{destination, TellsLeast, TellsWalk};
ghost use Rattle.trip_costs.specs.Costs.{timing_of};
ghost use Rattle.trip_costs.specs.WalkCosts.{tables};

use crate::answers::{Answer, Gathered};
use crate::answers_again::note_searched;
use crate::search::Search;
use crate::vehicles::Ask;
use dta_model::Route;
use labels::{GroupLabels, NO_ZONE, WalkLists};
use net_core::{Memory, ZoneNo};
use std::alloc::Global;

/// The zone at a place of a group, to which vehicles of a search go.
#[derive(Clone, Copy, Drop)]
pub(crate) struct Destination<'a> {
    pub(crate) search: &'a Search<'a>,
    pub(crate) labels: &'a GroupLabels<'a>,
    pub(crate) place: usize,
    ghost same_net: { labels.now.net ≡ search.now.net.now },
    ghost same_costs: { labels.now.costs ≡ tables search.now.costs },
    ghost within: { place < length labels.now.zones },
}

impl<'a> Destination<'a> {
    ghost use Rattle.time_routes.specs.Searches.{Answers, GoesTo, IsRightAnswer};
    ghost use Rattle.time_routes.specs.Tell.{Stands};

    // The least time from a zone, if it is asked.
    fn least_if(&self, asked: bool, origin: ZoneNo, step: u32) -> Option<u64>
        requires origin { origin.0 < length (zones self.now.labels.now.net.nodes) }
        requires other { origin.0 ≢ slice_index self.now.labels.now.zones self.now.place }
        ensures { asked ≡ true → TellsLeast (timing_of self.now.labels.now.costs)
            self.now.labels.now.net (zone_named self.now.labels.now.net origin.0)
            (destination self.now.labels.now self.now.place) step result }
    {
        if asked {
            self.labels.least(self.place, origin, step)
        } else {
            None
        }
    }

    // The least time and the chosen walk from a zone, where they are asked. Both are found at once.
    fn find(
        &self,
        alloc: Global,
        lists: &mut WalkLists,
        ask: Ask,
        origin: ZoneNo,
        step: u32,
    ) -> Result<(Option<u64>, Option<Route>), Memory>
        requires origin { origin.0 < length (zones self.now.labels.now.net.nodes) }
        requires other { origin.0 ≢ slice_index self.now.labels.now.zones self.now.place }
        ensures least { IfOk result (λ r. ask.least ≡ true
            → TellsLeast (timing_of self.now.labels.now.costs) self.now.labels.now.net
            (zone_named self.now.labels.now.net origin.0)
            (destination self.now.labels.now self.now.place) step r.0) }
        ensures walk { IfOk result (λ r. ask.walk ≡ true
            → TellsWalk (timing_of self.now.labels.now.costs) self.now.labels.now.net
            (zone_named self.now.labels.now.net origin.0)
            (destination self.now.labels.now self.now.place) step r.1) }
    {
        if !ask.walk {
            return Ok((self.least_if(ask.least, origin, step), None));
        }
        match self.labels.walk_in(alloc, lists, self.place, origin, step)? {
            Some(walk) => Ok((Some(walk.time), Some(walk.route))),
            None => Ok((None, None)),
        }
    }

    // What is answered of a vehicle that goes there, searched in the labels.
    fn search_answer(
        &self,
        alloc: Global,
        gathered: &mut Gathered,
        vehicle: u32,
    ) -> Result<Answer, Memory>
        requires { GoesTo self.now.search.now (slice_index self.now.labels.now.zones self.now.place)
            vehicle }
        ensures of { IfOk result (λ answer. answer.vehicle ≡ vehicle) }
        ensures right { IfOk result (IsRightAnswer self.now.search.now) }
        ensures kept { gathered.new.answers.items ≡ gathered.old.answers.items }
    {
        let from = self.search.origins[vehicle as usize];
        if from == NO_ZONE {
            return Ok(Answer {
                vehicle,
                least: None,
                walk: None,
            });
        }
        let origin = ZoneNo(from);
        let step = self.search.trips[vehicle as usize].departure;
        let ask = self.search.asks[vehicle as usize];
        let (least, walk) = self.find(alloc, &mut gathered.lists, ask, origin, step)?;
        note_searched(gathered, from);
        Ok(Answer {
            vehicle,
            least,
            walk,
        })
    }

    // What is answered of a vehicle that goes there, by what was answered of another where that
    // serves: a zone's links are searched once for all vehicles that leave it in a step.
    fn answer_of(
        &self,
        alloc: Global,
        gathered: &mut Gathered,
        vehicle: u32,
    ) -> Result<Answer, Memory>
        requires goes { GoesTo self.now.search.now
            (slice_index self.now.labels.now.zones self.now.place) vehicle }
        requires right { All (IsRightAnswer self.now.search.now) gathered.old.answers.items }
        ensures of { IfOk result (λ answer. answer.vehicle ≡ vehicle) }
        ensures right { IfOk result (IsRightAnswer self.now.search.now) }
        ensures kept { gathered.new.answers.items ≡ gathered.old.answers.items }
    {
        match self.search.answer_again(alloc, gathered, vehicle)? {
            Some(answer) => Ok(answer),
            None => self.search_answer(alloc, gathered, vehicle),
        }
    }

    /// Answers of some vehicles that go there.
    pub(crate) fn answer_vehicles(
        &self,
        alloc: Global,
        vehicles: &[u32],
        gathered: &mut Gathered,
    ) -> Result<(), Memory>
        requires goes { All (GoesTo self.now.search.now
            (slice_index self.now.labels.now.zones self.now.place)) vehicles.now }
        requires right { All (IsRightAnswer self.now.search.now) gathered.old.answers.items }
        ensures { OnOk result (Answers self.now.search.now (Stands vehicles.now)
            gathered.old.answers.items gathered.new.answers.items) }
    {
        for vehicle in vehicles {
            let answer = self.answer_of(alloc, gathered, *vehicle)?;
            gathered.answers.push(answer)?;
        }
        Ok(())
    }
}
