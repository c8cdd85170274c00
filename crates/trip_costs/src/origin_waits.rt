// Waits at origins, by the first link of the route and the bucket of the departure.
ghost use Rattle.std.specs.Prelude.{◌≡◌, ℕ, ◌+◌, ◌*◌, ◌≤◌, ◌<◌, ◌^◌, length, slice_index, IfOk};
ghost use Rattle.dta_model.specs.Lent.{plan_of};
ghost use Rattle.dta_model.specs.LinkTimes.{buckets_to, mean_time, place_in};
ghost use Rattle.dta_model.specs.Loading.{journeys_of};
ghost use Rattle.dta_model.specs.Sound.{IsSound};
ghost use Rattle.trip_costs.specs.OriginWaits.{waits_of};
ghost use Rattle.trip_costs.specs.WaitSums.{AreMeanWaits, AreShortWaits, longest_wait};

use crate::adding::{WaitSums, wait_sums};
use crate::places::number_at;
use dta_model::{Loaded, Loading};
use net_core::{LinkNo, Memory};
use std::alloc::Global;
use std::marker::Model;

/// For each link and bucket the mean wait of those who depart in the bucket and whose route begins
/// with the link, and how many they are.
#[derive(Drop)]
pub struct OriginWaits {
    bucket: u32,
    horizon: u32,
    buckets: u32,
    waits: Vec<u32>,
    departed: Vec<u32>,
}

impl Model for OriginWaits {
    ghost use Rattle.trip_costs.specs.OriginWaits.{WaitTable};
    ghost use Rattle.trip_costs.specs.WaitTables.{wait_view, IsWaitTable};

    ghost Value = { WaitTable };

    ghost view = { wait_view };

    ghost invariant = { IsWaitTable };
}

// The mean of so many waits, rounded up, and 0 where there is none.
fn mean(sum: u64, departed: u32) -> u32
    requires short { sum ≤ departed * longest_wait }
    ensures { result ≡ mean_time 0 sum departed }
{
    if departed == 0 {
        0
    } else {
        sum.div_ceil(u64::from(departed)) as u32
    }
}

// The mean waits of all buckets.
fn means(alloc: Global, sums: &[u64], departed: &[u32]) -> Result<Vec<u32>, Memory>
    requires many { length departed.now ≡ length sums.now }
    requires short { AreShortWaits sums.now departed.now }
    ensures { IfOk result (λ waits.
        AreMeanWaits sums.now departed.now waits.items (length sums.now)) }
{
    let mut waits = Vec::with_capacity(alloc, sums.len())?;
    for place in 0..sums.len() {
        waits.push(mean(sums[place], departed[place]))?;
    }
    Ok(waits)
}

impl OriginWaits {
    /// The waits of a loading, by buckets of so many steps. `loaded` is what the loading gives.
    pub fn of(
        alloc: Global,
        loading: &Loading,
        loaded: &Loaded,
        bucket: u32,
    ) -> Result<Self, Memory>
        requires sound { IsSound (plan_of loading.now) }
        requires loaded { loaded.now ≡ journeys_of (plan_of loading.now) }
        requires bucket { 1 ≤ bucket }
        ensures table { IfOk result (λ waits. waits ≡ waits_of (plan_of loading.now) bucket) }
        ensures size { IfOk result (λ waits. length waits.waits
            ≡ length loading.now.net.now.links * buckets_to waits.bucket waits.horizon) }
        ensures horizon { IfOk result (λ waits. waits.horizon ≡ loading.now.horizon) }
    {
        let buckets = loading.horizon.div_ceil(bucket);
        let WaitSums { sums, departed } = wait_sums(alloc, loading, loaded, bucket, buckets)?;
        let waits = means(alloc, &sums, &departed)?;
        Ok(OriginWaits {
            bucket,
            horizon: loading.horizon,
            buckets,
            waits,
            departed,
        })
    }

    /// The wait of who departs in a bucket for a first link, and 0 where nobody does.
    pub fn in_bucket(&self, link: LinkNo, bucket: u32) -> u32
        ensures { result ≡ slice_index self.now.waits
            (place_in (buckets_to self.now.bucket self.now.horizon) link.0 bucket) }
    {
        number_at(&self.waits, self.buckets, link, bucket)
    }

    /// How many depart in a bucket and begin with a link, entered or not.
    pub fn departed(&self, link: LinkNo, bucket: u32) -> u32
        ensures { result ≡ slice_index self.now.departed
            (place_in (buckets_to self.now.bucket self.now.horizon) link.0 bucket) }
    {
        number_at(&self.departed, self.buckets, link, bucket)
    }

    /// The number of buckets of a link.
    pub fn buckets(&self) -> u32
        ensures is { result ≡ buckets_to self.now.bucket self.now.horizon }
        ensures last { 1 ≤ self.now.bucket }
    {
        self.buckets
    }

    /// The length of a bucket, in steps.
    pub fn bucket_steps(&self) -> u32
        ensures is { result ≡ self.now.bucket }
        ensures some { 1 ≤ result }
    {
        self.bucket
    }

    /// The horizon, in steps.
    pub fn horizon(&self) -> u32
        ensures is { result ≡ self.now.horizon }
        ensures some { 1 ≤ result }
    {
        self.horizon
    }
}
