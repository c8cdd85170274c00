// Costs of whole trips.
ghost use Rattle.std.specs.Prelude.{◌≡◌, ◌≤◌, length, IfOk};
ghost use Rattle.dta_model.specs.Lent.{plan_of};
ghost use Rattle.dta_model.specs.LinkTimes.{table_of};
ghost use Rattle.dta_model.specs.Loading.{journeys_of};
ghost use Rattle.dta_model.specs.Sound.{IsSound};
ghost use Rattle.link_times.specs.TimeTables.{IsShort};
ghost use Rattle.trip_costs.specs.Costs.{costs_of};
ghost use Rattle.trip_costs.specs.OriginWaits.{waits_of};
ghost use Rattle.trip_costs.specs.TripCosts.{by_trips};

use crate::entries::Entries;
use crate::exits::Exits;
use crate::origin_waits::OriginWaits;
use dta_model::{Loaded, Loading};
use link_times::LinkTimes;
use net_core::Memory;
use std::alloc::Global;

/// When first links are entered, and when links are left.
#[derive(Drop)]
pub struct TripCosts {
    pub entries: Entries,
    pub exits: Exits,
}

impl TripCosts {
    /// The costs of a loading, by buckets of so many steps. `loaded` is what the loading gives.
    pub fn of(
        alloc: Global,
        loading: &Loading,
        loaded: &Loaded,
        bucket: u32,
    ) -> Result<Self, Memory>
        requires sound { IsSound (plan_of loading.now) }
        requires loaded { loaded.now ≡ journeys_of (plan_of loading.now) }
        requires bucket { 1 ≤ bucket }
        ensures costs { IfOk result (λ costs. costs_of costs ≡ by_trips
            (table_of (plan_of loading.now) bucket) (waits_of (plan_of loading.now) bucket)) }
        ensures times { IfOk result (λ costs.
            costs.exits ≡ table_of (plan_of loading.now) bucket) }
        ensures many { IfOk result (λ costs.
            length costs.exits.free ≡ length loading.now.net.now.links) }
        ensures short { IfOk result (λ costs. IsShort costs.exits) }
    {
        let links = loading.net.link_count();
        let waits = OriginWaits::of(alloc, loading, loaded, bucket)?;
        let entries = Entries::of(alloc, &waits, links)?;
        drop(waits);
        let times = LinkTimes::of(alloc, loading, loaded, bucket)?;
        let exits = Exits::of(alloc, times, links)?;
        Ok(TripCosts { entries, exits })
    }
}
