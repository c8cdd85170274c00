// Least times and chosen walks to a few zones at once.
ghost use Rattle.std.specs.Prelude.{◌≡◌, ◌≢◌, ◌<◌, ◌≤◌, length, slice_index, All, IfOk};
ghost use Rattle.net_core.specs.Network.{zones as zones_of};
ghost use Rattle.labels.specs.Named.{zone_named};
ghost use Rattle.labels.specs.ToZone.{AreOfFirst, destination, zone_numbers, TellsLeast};
ghost use Rattle.labels.specs.ToZone.{TellsFound, TellsWalk};
ghost use Rattle.trip_costs.specs.WalkCosts.{table_in, tables};
ghost use Rattle.trip_costs.specs.Costs.{timing_of};

use crate::filling::fill_table::{Filled, table_of};
use crate::filling::label_table::LabelTable;
use crate::filling::spare::Spare;
use crate::filling::timed_router::TimedRouter;
use crate::reading::fewest::fewest_walk_of;
use crate::reading::found::Walk;
use crate::reading::least::best_of;
use crate::reading::walk::walk_of;
use crate::reading::walk_lists::WalkLists;
use crate::reading::zone_labels::ZoneLabels;
use crate::states::by_zone::{ByZone, links_by_zone};
use crate::states::network_router::router_of;
use crate::states::router::Router;
use dta_model::Route;
use net_core::{Memory, Net, ZoneNo};
use std::alloc::Global;
use std::marker::Model;
use trip_costs::WalkCosts;

/// The most zones of a group.
pub const MOST_GROUP: usize = 8;

/// The steps that are left to each of a few zones, from every link at every step, by costs of links
/// or of whole trips.
#[derive(Drop)]
pub struct GroupLabels<'a> {
    net: &'a Net,
    costs: WalkCosts<'a>,
    zones: Vec<ZoneNo>,
    router: Router,
    firsts: ByZone,
    labels: LabelTable,
}

impl<'a> Model for GroupLabels<'a> {
    ghost use Rattle.labels.specs.Reading.GroupsTo.{group_of, AreFilled};
    ghost use Rattle.labels.specs.ToZone.{ToZones};

    ghost Value = { ToZones };

    ghost view = { group_of };

    ghost invariant = { AreFilled };
}

impl<'a> GroupLabels<'a> {
    /// The labels of one to eight zones by the costs.
    pub fn to_zones(
        alloc: Global,
        net: &'a Net,
        costs: WalkCosts<'a>,
        zones: &[ZoneNo],
    ) -> Result<Self, Memory>
        requires some { 1 ≤ length zones.now }
        requires few { length zones.now ≤ MOST_GROUP }
        requires table { length (table_in costs).free ≡ length net.now.links }
        requires zones { All (λ z. z.0 < length (zones_of net.now.nodes)) zones.now }
        ensures { IfOk result (λ labels. labels ≡ record {
          net = net.now;
          costs = tables costs.entry;
          zones = zone_numbers zones.now;
        }) }
    {
        Self::to_first(alloc, net, costs, zones, zones.len(), Spare::none(alloc))
    }

    /// The labels of the first of some zones, of so many of them at least, in memory of labels
    /// that are read no more where it serves.
    pub fn to_first(
        alloc: Global,
        net: &'a Net,
        costs: WalkCosts<'a>,
        zones: &[ZoneNo],
        least: usize,
        spare: Spare,
    ) -> Result<Self, Memory>
        requires some { 1 ≤ least }
        requires least { (least ≤ length zones.now) × (least ≤ MOST_GROUP) }
        requires table { length (table_in costs).free ≡ length net.now.links }
        requires zones { All (λ z. z.0 < length (zones_of net.now.nodes)) zones.now }
        ensures first { IfOk result (AreOfFirst net.now (tables costs.entry) zones.now) }
        ensures enough { IfOk result (λ labels. least ≤ length labels.zones) }
    {
        let router = router_of(alloc, net)?;
        let firsts = links_by_zone(alloc, net)?;
        let timed = TimedRouter {
            router: &router,
            costs,
            links: net.link_count(),
        };
        let filled = table_of(alloc, &timed, zones, least, spare)?;
        let zones = Vec::from_slice(alloc, &zones[..filled.count])?;
        let Filled {
            table: labels,
            count: _,
        } = filled;
        Ok(GroupLabels {
            net,
            costs,
            zones,
            router,
            firsts,
            labels,
        })
    }

    /// How many zones there are labels of.
    pub fn count(&self) -> usize
        ensures { result ≡ length self.now.zones }
    {
        self.zones.len()
    }

    /// The memory of labels that are read no more.
    pub fn into_spare(self, alloc: Global) -> Spare {
        let GroupLabels {
            net: _,
            costs: _,
            zones: _,
            router: _,
            firsts: _,
            labels,
        } = self;
        labels.into_spare(alloc)
    }

    /// The least steps from a zone to the zone at a place of the group, started in a step. None
    /// where there is no walk.
    pub fn least(&self, place: usize, origin: ZoneNo, step: u32) -> Option<u64>
        requires place { place < length self.now.zones }
        requires origin { origin.0 < length (zones_of self.now.net.nodes) }
        requires other { origin.0 ≢ slice_index self.now.zones place }
        ensures { TellsLeast (timing_of self.now.costs) self.now.net
            (zone_named self.now.net origin.0) (destination self.now place) step result }
    {
        let firsts = self.firsts.get(origin.0);
        let labels = ZoneLabels {
            net: self.net,
            zone: self.zones[place].0,
            table: &self.labels,
            place,
            router: &self.router,
            costs: self.costs,
        };
        match best_of(&labels, firsts, step as u64) {
            Some(first) => Some(first.time),
            None => None,
        }
    }

    /// The chosen walk from a zone to the zone at a place of the group, started in a step: of the
    /// walks of the least time the first in the order of link numbers, and by trips the first of
    /// those with the fewest links. None where there is no walk.
    pub fn walk(
        &self,
        alloc: Global,
        place: usize,
        origin: ZoneNo,
        step: u32,
    ) -> Result<Option<Route>, Memory>
        requires place { place < length self.now.zones }
        requires origin { origin.0 < length (zones_of self.now.net.nodes) }
        requires other { origin.0 ≢ slice_index self.now.zones place }
        ensures { IfOk result (λ route. TellsWalk (timing_of self.now.costs) self.now.net
            (zone_named self.now.net origin.0) (destination self.now place) step route) }
    {
        let mut lists = WalkLists::new(alloc);
        match self.walk_in(alloc, &mut lists, place, origin, step)? {
            Some(walk) => Ok(Some(walk.route)),
            None => Ok(None),
        }
    }

    /// The same with the least time, found in lists that serve the next walk too.
    pub fn walk_in(
        &self,
        alloc: Global,
        lists: &mut WalkLists,
        place: usize,
        origin: ZoneNo,
        step: u32,
    ) -> Result<Option<Walk>, Memory>
        requires place { place < length self.now.zones }
        requires origin { origin.0 < length (zones_of self.now.net.nodes) }
        requires other { origin.0 ≢ slice_index self.now.zones place }
        ensures { IfOk result (λ found. TellsFound (timing_of self.now.costs) self.now.net
            (zone_named self.now.net origin.0) (destination self.now place) step found) }
    {
        let firsts = self.firsts.get(origin.0);
        let labels = ZoneLabels {
            net: self.net,
            zone: self.zones[place].0,
            table: &self.labels,
            place,
            router: &self.router,
            costs: self.costs,
        };
        match self.costs {
            WalkCosts::Links(_) => walk_of(alloc, &mut lists.links, &labels, firsts, step as u64),
            WalkCosts::Trips(_) => {
                let WalkLists { links, search } = lists;
                fewest_walk_of(alloc, links, search, &labels, firsts, step as u64)
            }
        }
    }
}
