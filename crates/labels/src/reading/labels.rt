// Least times and chosen walks to one zone.
ghost use Rattle.std.specs.Prelude.{◌≡◌, ◌≢◌, ◌<◌, length, IfOk};
ghost use Rattle.net_core.specs.Network.{zones};
ghost use Rattle.labels.specs.Named.{zone_named};
ghost use Rattle.labels.specs.ToZone.{TellsLeast, TellsWalk};
ghost use Rattle.trip_costs.specs.WalkCosts.{table_in, tables};
ghost use Rattle.trip_costs.specs.Costs.{timing_of};

use crate::reading::group_labels::GroupLabels;
use dta_model::Route;
use net_core::{Memory, Net, ZoneNo};
use std::alloc::Global;
use std::marker::Model;
use trip_costs::WalkCosts;

/// The steps that are left to a zone, from every link at every step, by costs of links or of whole
/// trips.
#[derive(Drop)]
pub struct Labels<'a> {
    group: GroupLabels<'a>,
}

impl<'a> Model for Labels<'a> {
    ghost use Rattle.labels.specs.Reading.LabelsTo.{labels_of, IsAlone};
    ghost use Rattle.labels.specs.ToZone.{ToZone};

    ghost Value = { ToZone };

    ghost view = { labels_of };

    ghost invariant = { IsAlone };
}

impl<'a> Labels<'a> {
    /// The labels of a zone by the costs.
    pub fn to_zone(
        alloc: Global,
        net: &'a Net,
        costs: WalkCosts<'a>,
        zone: ZoneNo,
    ) -> Result<Self, Memory>
        requires table { length (table_in costs).free ≡ length net.now.links }
        requires zone { zone.0 < length (zones net.now.nodes) }
        ensures { IfOk result (λ labels. labels ≡ record {
          net = net.now;
          costs = tables costs.entry;
          zone = zone.0;
        }) }
    {
        let group = GroupLabels::to_zones(alloc, net, costs, &[zone])?;
        Ok(Labels { group })
    }

    /// The least steps from a zone to the labels' zone, started in a step. None where there is no
    /// walk.
    pub fn least(&self, origin: ZoneNo, step: u32) -> Option<u64>
        requires origin { origin.0 < length (zones self.now.net.nodes) }
        requires other { origin.0 ≢ self.now.zone }
        ensures { TellsLeast (timing_of self.now.costs) self.now.net
            (zone_named self.now.net origin.0) (zone_named self.now.net self.now.zone) step result }
    {
        self.group.least(0, origin, step)
    }

    /// The chosen walk from a zone to the labels' zone, started in a step: of the walks of the
    /// least time the first in the order of link numbers, and by trips the first of those with the
    /// fewest links. None where there is no walk.
    pub fn walk(&self, alloc: Global, origin: ZoneNo, step: u32) -> Result<Option<Route>, Memory>
        requires origin { origin.0 < length (zones self.now.net.nodes) }
        requires other { origin.0 ≢ self.now.zone }
        ensures { IfOk result (λ route. TellsWalk (timing_of self.now.costs) self.now.net
            (zone_named self.now.net origin.0) (zone_named self.now.net self.now.zone) step route) }
    {
        self.group.walk(alloc, 0, origin, step)
    }
}
