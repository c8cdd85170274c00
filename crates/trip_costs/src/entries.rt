// The entries of first links: when those enter one who depart in a step.
ghost use Rattle.std.specs.Prelude.{◌≡◌, ◌+◌, ◌*◌, ◌<◌, ◌≤◌, ◌^◌, max, length, IfOk, OnOk};
ghost use Rattle.dta_model.specs.LinkTimes.{buckets_to};
ghost use Rattle.trip_costs.specs.Entries.{AreEntryNumbers, entry_at, entry_before, entry_number};
ghost use Rattle.trip_costs.specs.Entries.{last_step, number_before as number_before_bucket};
ghost use Rattle.trip_costs.specs.TripCosts.{enter_step};

use crate::origin_waits::OriginWaits;
use crate::places::number_at;
use dta_model::MOST_HORIZON;
use net_core::{LinkNo, Memory};
use std::alloc::Global;
use std::marker::Model;

/// When first links are entered, by one number of 32 bits for each link and bucket of departure.
#[derive(Drop)]
pub struct Entries {
    bucket: u32,
    horizon: u32,
    buckets: u32,
    numbers: Vec<u32>,
}

impl Model for Entries {
    ghost use Rattle.trip_costs.specs.Entries.{EntryTable, entry_view, IsEntryTable};

    ghost Value = { EntryTable };

    ghost view = { entry_view };

    ghost invariant = { IsEntryTable };
}

// The last step of a bucket before the horizon.
fn last_of(steps: u32, horizon: u32, bucket: u32) -> u32
    requires steps { 1 ≤ steps }
    requires horizon { 1 ≤ horizon }
    ensures is { result ≡ last_step steps horizon bucket }
    ensures early { result < horizon }
{
    let next = (u64::from(bucket) + 1) * u64::from(steps);
    next.min(u64::from(horizon)) as u32 - 1
}

// The number of a bucket, by the latest entry of those who depart before it.
fn number_of(waits: &OriginWaits, link: LinkNo, bucket: u32, before: u32) -> u32
    requires horizon { waits.now.horizon ≤ MOST_HORIZON }
    requires before { before ≡ entry_before waits.now link.0 bucket }
    ensures { result ≡ entry_number waits.now link.0 bucket }
{
    let horizon = waits.horizon();
    let last = last_of(waits.bucket_steps(), horizon, bucket);
    before.max(last + waits.in_bucket(link, bucket).min(horizon))
}

// Adds the numbers of a link, bucket by bucket.
fn add_link(numbers: &mut Vec<u32>, waits: &OriginWaits, link: LinkNo) -> Result<(), Memory>
    requires horizon { waits.now.horizon ≤ MOST_HORIZON }
    requires before { AreEntryNumbers waits.now
        (link.0 * buckets_to waits.now.bucket waits.now.horizon) numbers.old.items }
    ensures { OnOk result (AreEntryNumbers waits.now
        ((link.0 + 1) * buckets_to waits.now.bucket waits.now.horizon) numbers.new.items) }
{
    let mut before = 0u32;
    for bucket in 0..waits.buckets() {
        let number = number_of(waits, link, bucket, before);
        numbers.push(number)?;
        before = number.min(waits.horizon());
    }
    Ok(())
}

// The number of the bucket before a bucket of a link, and 0 where there is none.
fn number_before(numbers: &[u32], buckets: u32, link: LinkNo, bucket: u32) -> u32
    ensures { result ≡ number_before_bucket numbers.now buckets link.0 bucket }
{
    if bucket == 0 {
        0
    } else {
        number_at(numbers, buckets, link, bucket - 1)
    }
}

impl Entries {
    /// The entries by the waits at so many links.
    pub fn of(alloc: Global, waits: &OriginWaits, links: u32) -> Result<Self, Memory>
        requires size { length waits.now.waits
            ≡ links * buckets_to waits.now.bucket waits.now.horizon }
        requires horizon { waits.now.horizon ≤ MOST_HORIZON }
        ensures { IfOk result (λ entries. entry_at entries ≡ enter_step waits.now) }
    {
        let buckets = waits.buckets();
        let mut numbers = Vec::with_capacity(alloc, links as usize * buckets as usize)?;
        for link in 0..links {
            add_link(&mut numbers, waits, LinkNo(link))?;
        }
        Ok(Entries {
            bucket: waits.bucket_steps(),
            horizon: waits.horizon(),
            buckets,
            numbers,
        })
    }

    /// The step in which who departs in a step for a link enters it. Who departs later never
    /// enters earlier. It takes two look-ups, side by side.
    pub fn enter(&self, link: LinkNo, step: u64) -> u64
        ensures step { result ≡ entry_at self.now link.0 step }
        ensures later { step ≤ result }
        ensures soon { result ≤ max step (2 ^ 32) }
    {
        if step < u64::from(self.horizon) {
            let bucket = step as u32 / self.bucket;
            let last = last_of(self.bucket, self.horizon, bucket);
            let number = number_at(&self.numbers, self.buckets, link, bucket);
            let before = number_before(&self.numbers, self.buckets, link, bucket);
            let own = (step + u64::from(number)).saturating_sub(u64::from(last));
            own.max(u64::from(before))
                .min(u64::from(self.horizon))
                .max(step)
        } else {
            step
        }
    }
}
