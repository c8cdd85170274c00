// The costs of a loading, of either kind.
ghost use Rattle.std.specs.Prelude.{◌≡◌, ◌≤◌, length, IfOk};
ghost use Rattle.dta_model.specs.Lent.{plan_of};
ghost use Rattle.dta_model.specs.LinkTimes.{table_of};
ghost use Rattle.dta_model.specs.Loading.{journeys_of};
ghost use Rattle.dta_model.specs.Sound.{IsSound};
ghost use Rattle.link_times.specs.TimeTables.{IsShort};
ghost use Rattle.trip_costs.specs.LoadingCosts.{costs_by};
ghost use Rattle.trip_costs.specs.Costs.{times_in, timing_in};
ghost use Rattle.trip_costs.specs.WalkCosts.{table_in, timing};

use crate::costs::TripCosts;
use crate::walk_costs::WalkCosts;
use dta_model::{Loaded, Loading};
use link_times::LinkTimes;
use net_core::Memory;
use std::alloc::Global;

/// By what routes are chosen and gaps are told: by link times, or by whole trips.
#[derive(Clone, Copy, Debug, PartialEq, Eq)]
pub enum Costs {
    Links,
    Trips,
}

/// The costs of a loading: its link times, or the costs of whole trips over them.
#[derive(Drop)]
pub enum LoadingCosts {
    Links(LinkTimes),
    Trips(TripCosts),
}

impl LoadingCosts {
    /// The costs of this kind of a loading, by buckets of so many steps. `loaded` is what the
    /// loading gives.
    pub fn of(
        alloc: Global,
        by: Costs,
        loading: &Loading,
        loaded: &Loaded,
        bucket: u32,
    ) -> Result<Self, Memory>
        requires sound { IsSound (plan_of loading.now) }
        requires loaded { loaded.now ≡ journeys_of (plan_of loading.now) }
        requires bucket { 1 ≤ bucket }
        ensures costs { IfOk result (λ costs.
            timing_in costs ≡ costs_by by (plan_of loading.now) bucket) }
        ensures times { IfOk result (λ costs.
            times_in costs ≡ table_of (plan_of loading.now) bucket) }
        ensures short { IfOk result (λ costs. IsShort (times_in costs)) }
    {
        match by {
            Costs::Links => {
                let times = LinkTimes::of(alloc, loading, loaded, bucket)?;
                Ok(LoadingCosts::Links(times))
            }
            Costs::Trips => {
                let costs = TripCosts::of(alloc, loading, loaded, bucket)?;
                Ok(LoadingCosts::Trips(costs))
            }
        }
    }

    /// The costs, lent to who times walks.
    pub fn lent(&self) -> WalkCosts
        ensures costs { timing result ≡ timing_in self.now }
        ensures times { table_in result ≡ times_in self.now }
    {
        match self {
            LoadingCosts::Links(times) => WalkCosts::Links(times),
            LoadingCosts::Trips(costs) => WalkCosts::Trips(costs),
        }
    }

    /// The link times.
    pub fn times(&self) -> &LinkTimes
        ensures { result.now ≡ times_in self.now }
    {
        match self {
            LoadingCosts::Links(times) => times,
            LoadingCosts::Trips(costs) => costs.exits.times(),
        }
    }
}
