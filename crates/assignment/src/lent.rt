// What is assigned.
ghost use Rattle.std.specs.Prelude.{◌≡◌};
ghost use Rattle.dta_model.specs.Lent.{plan_of as loading_plan};
ghost use Rattle.dta_model.specs.Sound.{IsSound};
ghost use Rattle.gap.specs.Timed.{AreTimed};
ghost use Rattle.trip_costs.specs.WalkCosts.{table_in};
ghost use Rattle.assignment.specs.Lent.{IsAssignment, plan_in, traffic_in};
ghost use Rattle.assignment.specs.Traffic.{AreRoutesOf};

use dta_model::{Loading, Routes, Trip};
use dta_words::Settings;
use gap::TimedTrips;
use net_core::Net;
use start_table::StartRows;
use trip_costs::WalkCosts;

/// What is assigned: trips over a network, under settings, and the rows of a start table, of which
/// there may be none. It lends its parts.
#[derive(Clone, Copy, Drop)]
pub struct Assignment<'a> {
    pub settings: &'a Settings,
    pub net: &'a Net,
    pub trips: &'a [Trip],
    pub start: &'a StartRows,
    /// The workers that search routes side by side, from 1 to 16.
    pub workers: u32,
}

impl Assignment<'_> {
    /// The loading over the routes of an iteration.
    pub fn loading<'r>(&'r self, routes: &'r Routes) -> Loading<'r>
        requires is { IsAssignment self.now }
        requires routes { AreRoutesOf (traffic_in self.now) routes.now }
        ensures plan { loading_plan result ≡ plan_in self.now routes.now }
        ensures sound { IsSound (loading_plan result) }
    {
        Loading {
            net: self.net,
            queue: self.settings.queue,
            delta: self.settings.units.delta,
            horizon: self.settings.horizon,
            trips: self.trips,
            routes,
        }
    }
    /// The trips, over costs of walks over the network.
    pub fn timed<'r>(&'r self, costs: WalkCosts<'r>) -> TimedTrips<'r>
        requires are { AreTimed self.now.net.now (table_in costs) self.now.trips.now }
        ensures net { result.net.now ≡ self.now.net.now }
        ensures costs { result.costs ≡ costs.entry }
        ensures trips { result.trips.now ≡ self.now.trips.now }
    {
        TimedTrips {
            net: self.net,
            costs,
            trips: self.trips,
        }
    }
}
