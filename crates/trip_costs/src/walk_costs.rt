// By what walks are timed.
ghost use Rattle.std.specs.Prelude.{◌≡◌, ◌<◌, ◌≤◌, ◌^◌, max, true, length};
ghost use Rattle.dta_model.specs.LinkTimes.{bucket_count};
ghost use Rattle.trip_costs.specs.LoadingCosts.{kind_of};
ghost use Rattle.trip_costs.specs.WalkCosts.{AreTimed, IsLevel, enter_in, steps_in, table_in};
ghost use Rattle.trip_costs.specs.WalkCosts.{timing};

use crate::costs::TripCosts;
use crate::loading_costs::Costs;
use link_times::LinkTimes;
use net_core::LinkNo;

/// By what walks are timed: by link times from the departure on, or by whole trips, where the wait
/// at the origin counts and nobody leaves a link before who entered it earlier.
#[derive(Clone, Copy, Drop)]
pub enum WalkCosts<'a> {
    Links(&'a LinkTimes),
    Trips(&'a TripCosts),
}

impl<'a> WalkCosts<'a> {
    /// Of which kind they are.
    pub fn kind(&self) -> Costs
        ensures { result ≡ kind_of (timing self.now) }
    {
        match self {
            WalkCosts::Links(_) => Costs::Links,
            WalkCosts::Trips(_) => Costs::Trips,
        }
    }

    /// The table of link times.
    pub fn times(&self) -> &LinkTimes
        ensures { result.now ≡ table_in self.now }
    {
        match self {
            WalkCosts::Links(times) => times,
            WalkCosts::Trips(costs) => costs.exits.times(),
        }
    }

    /// The horizon, in steps.
    pub fn horizon(&self) -> u32
        ensures is { result ≡ (table_in self.now).horizon }
        ensures timed { AreTimed self.now }
    {
        self.times().horizon()
    }

    /// Whether a link takes as many steps in each step of a bucket. By trips it may say no where
    /// the link does.
    pub fn is_level(&self, link: LinkNo, bucket: u32) -> bool
        requires link { link.0 < length (table_in self.now).free }
        requires bucket { bucket < bucket_count (table_in self.now) }
        ensures { result ≡ true → IsLevel self.now link.0 bucket }
    {
        match self {
            WalkCosts::Links(_) => true,
            WalkCosts::Trips(costs) => costs.exits.is_level(link, bucket),
        }
    }

    /// The step in which who starts in a step enters a first link.
    pub fn enter(&self, link: LinkNo, step: u64) -> u64
        ensures is { result ≡ enter_in self.now link.0 step }
        ensures later { step ≤ result }
        ensures soon { result ≤ max step (2 ^ 32) }
    {
        match self {
            WalkCosts::Links(_) => step,
            WalkCosts::Trips(costs) => costs.entries.enter(link, step),
        }
    }

    /// The steps that a link takes who enters it in a step.
    pub fn steps(&self, link: LinkNo, step: u64) -> u32
        requires { link.0 < length (table_in self.now).free }
        ensures is { result ≡ steps_in self.now link.0 step }
        ensures least { 1 ≤ result }
    {
        match self {
            WalkCosts::Links(times) => times.at(link, step),
            WalkCosts::Trips(costs) => costs.exits.steps(link, step),
        }
    }
}
