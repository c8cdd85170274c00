// The exits of links: when those leave a link who enter it in a step.
ghost use Rattle.std.specs.Prelude.{◌≡◌, ◌+◌, ◌-◌, ◌*◌, ◌<◌, ◌≤◌, ◌^◌, true, length, IfOk, OnOk};
ghost use Rattle.dta_model.specs.LinkTimes.{bucket_count};
ghost use Rattle.link_times.specs.TimeTables.{IsShort};
ghost use Rattle.trip_costs.specs.Latest.{AreLatestExits, latest_before};
ghost use Rattle.trip_costs.specs.TripCosts.{IsLevelBy, after_time, exit_step, steps_by_trips};

use dta_model::MOST_HORIZON;
use link_times::LinkTimes;
use net_core::{LinkNo, Memory};
use std::alloc::Global;
use std::marker::Model;

/// Link times, and for each bucket of each link the latest exit of those who enter in an earlier
/// one.
#[derive(Drop)]
pub struct Exits {
    times: LinkTimes,
    latest: Vec<u32>,
}

impl Model for Exits {
    ghost use Rattle.dta_model.specs.LinkTimes.{TimeTable};
    ghost use Rattle.trip_costs.specs.Latest.{IsOfTimes};

    ghost Value = { TimeTable };

    ghost view = { λ e. e.times };

    ghost invariant = { IsOfTimes };
}

// When who enters a link in a step leaves it, by the time of that step alone.
fn own_exit(times: &LinkTimes, link: LinkNo, step: u64) -> u64
    requires link { link.0 < length times.now.free }
    requires step { step < 2 ^ 62 }
    ensures { result ≡ after_time times.now link.0 step }
{
    let end = times.horizon() as u64;
    let free = times.at(link, end) as u64;
    let time = times.at(link, step) as u64;
    (step + time).min((step + free).max(end))
}

// The latest exit of those who enter before a bucket, by that of those who enter before the
// bucket before it.
fn latest_by(times: &LinkTimes, link: LinkNo, bucket: u32, before: u32) -> u32
    requires link { link.0 < length times.now.free }
    requires short { IsShort times.now }
    requires horizon { times.now.horizon ≤ MOST_HORIZON }
    requires bucket { bucket < bucket_count times.now }
    requires before { before ≡ latest_before (after_time times.now link.0) times.now.bucket
        (bucket - 1) }
    ensures { result ≡ latest_before (after_time times.now link.0) times.now.bucket bucket }
{
    if bucket == 0 {
        return 0;
    }
    let steps = times.bucket_steps();
    let own = own_exit(times, link, bucket as u64 * steps as u64 - 1);
    before.max(own as u32)
}

// Adds the latest exits of a link, bucket by bucket.
fn add_link(latest: &mut Vec<u32>, times: &LinkTimes, link: LinkNo) -> Result<(), Memory>
    requires link { link.0 < length times.now.free }
    requires short { IsShort times.now }
    requires horizon { times.now.horizon ≤ MOST_HORIZON }
    requires before { AreLatestExits times.now (link.0 * bucket_count times.now) latest.old.items }
    ensures { OnOk result
        (AreLatestExits times.now ((link.0 + 1) * bucket_count times.now) latest.new.items) }
{
    let mut before = 0u32;
    for bucket in 0..times.buckets() {
        before = latest_by(times, link, bucket, before);
        latest.push(before)?;
    }
    Ok(())
}

impl Exits {
    /// The exits by the times of so many links.
    pub fn of(alloc: Global, times: LinkTimes, links: u32) -> Result<Self, Memory>
        requires links { links ≡ length times.free }
        requires short { IsShort times }
        requires horizon { times.horizon ≤ MOST_HORIZON }
        ensures { IfOk result (λ exits. exits ≡ times) }
    {
        let mut latest = Vec::with_capacity(alloc, links as usize * times.buckets() as usize)?;
        for link in 0..links {
            add_link(&mut latest, &times, LinkNo(link))?;
        }
        Ok(Exits { times, latest })
    }

    /// The step in which who enters a link in a step leaves it. Who enters later never leaves
    /// earlier.
    pub fn exit(&self, link: LinkNo, step: u64) -> u64
        requires link { link.0 < length self.now.free }
        requires step { step < 2 ^ 62 }
        ensures step { result ≡ exit_step self.now link.0 step }
        ensures later { step < result }
        ensures soon { result ≤ step + MOST_HORIZON }
    {
        let own = own_exit(&self.times, link, step);
        if step < self.times.horizon() as u64 {
            let bucket = step as u32 / self.times.bucket_steps();
            own.max(self.before(link, bucket) as u64)
        } else {
            own
        }
    }

    /// The steps that a link takes who enters it in a step. From the horizon on they stand still.
    pub fn steps(&self, link: LinkNo, step: u64) -> u32
        requires link { link.0 < length self.now.free }
        ensures is { result ≡ steps_by_trips self.now link.0 step }
        ensures least { 1 ≤ result }
        ensures most { result ≤ MOST_HORIZON }
    {
        let entry = step.min(self.times.horizon() as u64);
        (self.exit(link, entry) - entry) as u32
    }

    /// Whether a link takes as many steps in each step of a bucket: nobody who entered before it
    /// leaves later, and nobody who enters in it is kept from leaving past the horizon. It may say
    /// no where the link does.
    pub fn is_level(&self, link: LinkNo, bucket: u32) -> bool
        requires link { link.0 < length self.now.free }
        requires bucket { bucket < bucket_count self.now }
        ensures { result ≡ true → IsLevelBy (steps_by_trips self.now) self.now link.0 bucket }
    {
        let steps = self.times.bucket_steps() as u64;
        let horizon = self.times.horizon() as u64;
        let first = bucket as u64 * steps;
        let end = (first + steps).min(horizon);
        let free = self.times.at(link, horizon) as u64;
        let time = self.times.at(link, first) as u64;
        if self.before(link, bucket) as u64 > first + time {
            return false;
        }
        time <= free || end + time <= horizon + 1
    }

    // The latest exit of those who enter a link before a bucket.
    fn before(&self, link: LinkNo, bucket: u32) -> u32
        requires link { link.0 < length self.now.free }
        requires bucket { bucket < bucket_count self.now }
        ensures { result ≡ latest_before (after_time self.now link.0) self.now.bucket bucket }
    {
        self.latest[link.0 as usize * self.times.buckets() as usize + bucket as usize]
    }

    /// The link times.
    pub fn times(&self) -> &LinkTimes
        ensures { result.now ≡ self.now }
    {
        &self.times
    }
}
