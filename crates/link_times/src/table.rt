// The times of links by the bucket of their entry.
ghost use Rattle.std.specs.Prelude.{◌≡◌, ℕ, ◌+◌, ◌*◌, ◌<◌, ◌≤◌, ◌^◌, List, length, All, IfOk, []};
ghost use Rattle.std.specs.Prelude.{replicate, slice_index};
ghost use Rattle.dta_model.specs.Lent.{plan_of};
ghost use Rattle.dta_model.specs.LinkTimes.{bucket_count, buckets_to, entered_in, free_table};
ghost use Rattle.dta_model.specs.LinkTimes.{place_in, table_in, table_of, time_at, TimeTable};
ghost use Rattle.dta_model.specs.Loading.{journeys_of};
ghost use Rattle.dta_model.specs.Sound.{IsSound};
ghost use Rattle.dta_model.specs.declared.plan.Plan.{Plan};
ghost use Rattle.link_times.specs.Tables.{numbers_of};
ghost use Rattle.link_times.specs.TimeTables.{IsTimeTable};

use crate::adding::{Sums, sums_of};
use crate::means::{are_narrow, free_steps, free_times, means, narrowed};
use crate::rows::{Rows, rows_of};
use dta_model::{Loaded, Loading, MOST_HORIZON};
use net_core::{LinkNo, Memory, Net};
use std::alloc::Global;
use std::marker::Model;

/// The steps that each link takes who enters it in the steps of a bucket, and how many entered.
#[derive(Drop)]
pub struct LinkTimes {
    bucket: u32,
    horizon: u32,
    buckets: u32,
    free: Vec<u32>,
    times: Vec<u32>,
    rows: Rows,
    counts: Counts,
}

// The numbers of visits: none, or one for each bucket, in 32 bits where all have so few.
#[derive(Drop)]
enum Counts {
    NoVisits,
    Narrow(Vec<u32>),
    Wide(Vec<u64>),
}

impl Model for LinkTimes {
    ghost use Rattle.dta_model.specs.LinkTimes.{TimeTable};
    ghost use Rattle.link_times.specs.Tables.{table_view, IsTable};

    ghost Value = { TimeTable };

    ghost view = { table_view };

    ghost invariant = { IsTable };
}

// The number of buckets up to a horizon.
fn buckets_until(bucket: u32, horizon: u32) -> u32
    requires bucket { 1 ≤ bucket }
    requires horizon { 1 ≤ horizon }
    ensures is { result ≡ buckets_to bucket horizon }
    ensures some { 1 ≤ result }
{
    horizon.div_ceil(bucket)
}

// The place of a bucket of a link, where each link has so many buckets.
#[tactic(auto, using(crate::proofs::Places::place_inside))]
fn place_of(links: usize, buckets: u32, link: LinkNo, bucket: u32) -> usize
    requires link { link.0 < links }
    requires bucket { bucket < buckets }
    ensures is { result ≡ place_in buckets link.0 bucket }
    ensures within { result < links * buckets }
{
    link.0 as usize * buckets as usize + bucket as usize
}

// The place of a link in the row of a bucket, where each row has so many links.
#[tactic(auto, using(crate::proofs::Places::place_inside))]
fn row_place(links: usize, buckets: u32, link: LinkNo, bucket: u32) -> usize
    requires link { link.0 < links }
    requires bucket { bucket < buckets }
    requires few { links * buckets < 2 ^ 63 }
    ensures { result ≡ bucket * links + link.0 }
{
    bucket as usize * links + link.0 as usize
}

impl LinkTimes {
    /// The free-flow table of a network: no visits, with buckets of so many steps up to a horizon.
    pub fn free(alloc: Global, net: &Net, bucket: u32, horizon: u32) -> Result<Self, Memory>
        requires bucket { 1 ≤ bucket }
        requires horizon { 1 ≤ horizon }
        ensures table { IfOk result (λ table. table ≡ free_table net.now bucket horizon) }
        ensures empty { (p : Plan) → p.net ≡ net.now → p.horizon ≡ horizon
            → IfOk result (λ table. table ≡ table_in p bucket []) }
    {
        let buckets = buckets_until(bucket, horizon);
        let free = free_steps(alloc, net)?;
        let times = free_times(alloc, &free, buckets)?;
        Ok(LinkTimes {
            bucket,
            horizon,
            buckets,
            free,
            times,
            rows: Rows::NoRows,
            counts: Counts::NoVisits,
        })
    }

    /// The table of a loading, with buckets of so many steps. `loaded` is what the loading gives.
    pub fn of(
        alloc: Global,
        loading: &Loading,
        loaded: &Loaded,
        bucket: u32,
    ) -> Result<Self, Memory>
        requires sound { IsSound (plan_of loading.now) }
        requires loaded { loaded.now ≡ journeys_of (plan_of loading.now) }
        requires bucket { 1 ≤ bucket }
        ensures table { IfOk result (λ table. table ≡ table_of (plan_of loading.now) bucket) }
        ensures short { IfOk result (λ table. All (λ x. x ≤ MOST_HORIZON) table.times) }
    {
        let buckets = buckets_until(bucket, loading.horizon);
        let Sums { sums, counts } = sums_of(alloc, loading, loaded, bucket, buckets)?;
        let free = free_steps(alloc, loading.net)?;
        let times = means(alloc, &free, buckets, &sums, &counts)?;
        drop(sums);
        Self::counted(alloc, bucket, loading.horizon, free, times, counts)
    }

    // The table with these numbers of visits.
    fn counted(
        alloc: Global,
        bucket: u32,
        horizon: u32,
        free: Vec<u32>,
        times: Vec<u32>,
        counts: Vec<u64>,
    ) -> Result<Self, Memory>
        requires bucket { 1 ≤ bucket }
        requires horizon { 1 ≤ horizon }
        requires size { length times.items ≡ length free.items * buckets_to bucket horizon }
        requires many { length counts.items ≡ length times.items }
        requires free { All (λ f. 1 ≤ f) free.items }
        requires times { All (λ x. 1 ≤ x) times.items }
        ensures { IfOk result (λ table. table ≡ record {
          bucket = bucket;
          horizon = horizon;
          free = free.items;
          times = times.items;
          entered = counts.items;
        }) }
    {
        let buckets = buckets_until(bucket, horizon);
        let rows = rows_of(alloc, free.len(), buckets, &times)?;
        let counts = if are_narrow(&counts) {
            Counts::Narrow(narrowed(alloc, &counts)?)
        } else {
            Counts::Wide(counts)
        };
        Ok(LinkTimes {
            bucket,
            horizon,
            buckets,
            free,
            times,
            rows,
            counts,
        })
    }

    /// The table with these numbers, and no visits counted. The times stand link by link, and
    /// within a link bucket by bucket.
    pub fn given(bucket: u32, horizon: u32, free: Vec<u32>, times: Vec<u32>) -> Self
        requires bucket { 1 ≤ bucket }
        requires horizon { 1 ≤ horizon }
        requires size { length times.items ≡ length free.items * buckets_to bucket horizon }
        requires free { All (λ f. 1 ≤ f) free.items }
        requires times { All (λ x. 1 ≤ x) times.items }
        ensures { result ≡ record {
          bucket = bucket;
          horizon = horizon;
          free = free.items;
          times = times.items;
          entered = replicate (length times.items) 0;
        } }
    {
        LinkTimes {
            bucket,
            horizon,
            buckets: buckets_until(bucket, horizon),
            free,
            times,
            rows: Rows::NoRows,
            counts: Counts::NoVisits,
        }
    }

    /// The steps that a link takes who enters it in a step: those of the step's bucket, and the
    /// free-flow steps from the horizon on.
    #[tactic(auto, unfolding(dta_model::specs::LinkTimes::time_at))]
    pub fn at(&self, link: LinkNo, step: u64) -> u32
        requires { link.0 < length self.now.free }
        ensures time { result ≡ time_at self.now link.0 step }
        ensures least { 1 ≤ result }
    {
        if step < self.horizon as u64 {
            // In 32 bits: a division of 64 takes three times as long on many processors.
            self.beside(link, step as u32 / self.bucket)
        } else {
            self.free[link.0 as usize]
        }
    }

    // The steps that a link takes in a bucket, read where those of other links stand beside it.
    fn beside(&self, link: LinkNo, bucket: u32) -> u32
        requires link { link.0 < length self.now.free }
        requires bucket { bucket < bucket_count self.now }
        ensures { result ≡ slice_index self.now.times
            (place_in (bucket_count self.now) link.0 bucket) }
    {
        match self
            .rows
            .get(row_place(self.free.len(), self.buckets, link, bucket))
        {
            Some(time) => time,
            None => self.in_bucket(link, bucket),
        }
    }

    /// The steps that a link takes who enters it in a step of a bucket before the horizon.
    pub fn in_bucket(&self, link: LinkNo, bucket: u32) -> u32
        requires link { link.0 < length self.now.free }
        requires bucket { bucket < bucket_count self.now }
        ensures { result ≡ slice_index self.now.times
            (place_in (bucket_count self.now) link.0 bucket) }
    {
        self.times[place_of(self.free.len(), self.buckets, link, bucket)]
    }

    /// The number of visits to a link in a bucket.
    #[tactic(auto, unfolding(dta_model::specs::LinkTimes::entered_in))]
    pub fn entered(&self, link: LinkNo, bucket: u32) -> u64
        requires link { link.0 < length self.now.free }
        requires bucket { bucket < bucket_count self.now }
        ensures { result ≡ entered_in self.now link.0 bucket }
    {
        let place = place_of(self.free.len(), self.buckets, link, bucket);
        match &self.counts {
            Counts::NoVisits => 0,
            Counts::Narrow(counts) => u64::from(counts[place]),
            Counts::Wide(counts) => counts[place],
        }
    }

    /// The number of buckets of a link.
    pub fn buckets(&self) -> u32
        ensures is { result ≡ bucket_count self.now }
        ensures size { length self.now.times ≡ length self.now.free * result }
    {
        self.buckets
    }

    /// The length of a bucket, in steps.
    pub fn bucket_steps(&self) -> u32
        ensures is { result ≡ self.now.bucket }
        ensures some { 1 ≤ result }
    {
        self.bucket
    }

    /// The horizon, in steps.
    pub fn horizon(&self) -> u32
        ensures is { result ≡ self.now.horizon }
        ensures some { 1 ≤ result }
        ensures sound { IsTimeTable self.now }
    {
        told(self.horizon, &self.free, &self.times);
        self.horizon
    }
}

// Numbers of 32 bits are below 2^32. It does nothing.
fn told(horizon: u32, free: &[u32], times: &[u32])
    ensures horizon { horizon < 2 ^ 32 }
    ensures free { All (λ x. x < 2 ^ 32) free.now }
    ensures times { All (λ x. x < 2 ^ 32) times.now }
{}
