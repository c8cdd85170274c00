// What is answered of vehicles that go to some zones, a group of zones after another.
ghost use Rattle.std.specs.Prelude.{◌≡◌, All, IfOk, OnOk};
ghost use Rattle.time_routes.specs.Searches.{Answers, AreOfZones, AreZones, GoesToAny};
ghost use Rattle.time_routes.specs.Searches.{IsRightAnswer};
ghost use Rattle.labels.specs.ToZone.{zone_numbers};
ghost use Rattle.trip_costs.specs.WalkCosts.{tables};

use crate::destination::Destination;
use crate::search::Search;
use dta_model::Route;
use labels::{GroupLabels, Spare, WalkLists};
use net_core::{Memory, ZoneNo};
use std::alloc::Global;

/// What is answered of a vehicle: its least time and its chosen walk. None where there is no walk,
/// and where it wasn't asked.
#[derive(Drop)]
pub(crate) struct Answer {
    pub(crate) vehicle: u32,
    pub(crate) least: Option<u64>,
    pub(crate) walk: Option<Route>,
}

/// Answers one after another, with the place of the last that was searched from each zone, and
/// lists in which walks are found.
#[derive(Drop)]
pub(crate) struct Gathered {
    pub(crate) answers: Vec<Answer>,
    pub(crate) searched: Vec<usize>,
    pub(crate) lists: WalkLists,
}

impl<'a> Search<'a> {
    // Answers of the vehicles that go to the zones of a group.
    fn answer_group(
        &self,
        alloc: Global,
        labels: &GroupLabels,
        zones: &[ZoneNo],
        gathered: &mut Gathered,
    ) -> Result<(), Memory>
        requires net { labels.now.net ≡ self.now.net.now }
        requires costs { labels.now.costs ≡ tables self.now.costs }
        requires of { labels.now.zones ≡ zone_numbers zones.now }
        requires zones { AreZones self.now zones.now }
        requires right { All (IsRightAnswer self.now) gathered.old.answers.items }
        ensures { OnOk result (Answers self.now (GoesToAny self.now zones.now)
            gathered.old.answers.items gathered.new.answers.items) }
    {
        for place in 0..zones.len() {
            let vehicles = self.lists.get(zones[place].0);
            let there = Destination {
                search: &*self,
                labels: &*labels,
                place,
            };
            there.answer_vehicles(alloc, vehicles, gathered)?;
        }
        Ok(())
    }

    /// What is answered of the vehicles that go to some zones, a group after another. The labels
    /// of a group take the place of those before, those of the first the memory that is given and,
    /// once they are read no more, those of the last are given back. All walks are gathered in one
    /// list.
    pub(crate) fn answers_to(
        &self,
        alloc: Global,
        zones: &[ZoneNo],
        spare: Spare,
    ) -> Result<(Vec<Answer>, Spare), Memory>
        requires { AreZones self.now zones.now }
        ensures { IfOk result (λ r. AreOfZones self.now zones.now r.0.items) }
    {
        let mut gathered = Gathered {
            answers: Vec::new(alloc),
            searched: Vec::from_elem(alloc, 0, self.net.zone_count() as usize)?,
            lists: WalkLists::new(alloc),
        };
        let mut spare = spare;
        let mut first = 0;
        while first < zones.len() {
            let labels = GroupLabels::to_first(
                alloc,
                self.net,
                self.costs,
                &zones[first..],
                1,
                spare,
            )?;
            let next = first + labels.count();
            self.answer_group(alloc, &labels, &zones[first..next], &mut gathered)?;
            spare = labels.into_spare(alloc);
            first = next;
        }
        Ok((gathered.answers, spare))
    }
}
