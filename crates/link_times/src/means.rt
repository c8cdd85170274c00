// Times of buckets, and the lists of a table.
ghost use Rattle.std.specs.Prelude.{◌≡◌, ℕ, ◌+◌, ◌*◌, ◌/◌, ◌<◌, ◌≤◌, ◌^◌, List, length};
ghost use Rattle.std.specs.Prelude.{slice_index, All, IfOk, IsTrue, map, ◌↔◌};
ghost use Rattle.dta_model.specs.LinkTimes.{free_steps as steps_of_links, mean_time};
ghost use Rattle.net_core.specs.Network.{IsNet};
ghost use Rattle.link_times.specs.Means.{AreFree, AreMeans};
ghost use Rattle.link_times.specs.Sums.{AreWithin};

use dta_model::{MOST_HORIZON, MOST_TRIPS};
use net_core::{LinkNo, MOST_LINKS, Memory, Net};
use std::alloc::Global;

// The mean of the times of a bucket, rounded up; the free-flow steps where it has no visit.
#[tactic(auto, using(crate::proofs::RoundedUp::mean_least, crate::proofs::RoundedUp::mean_most))]
fn mean(free: u32, sum: u64, count: u64) -> u32
    requires least { 1 ≤ free }
    requires most { free ≤ MOST_HORIZON }
    requires long { count ≤ sum }
    requires short { sum ≤ count * MOST_HORIZON }
    ensures is { result ≡ mean_time free sum count }
    ensures least { 1 ≤ result }
    ensures most { result ≤ MOST_HORIZON }
{
    if count == 0 {
        free
    } else {
        sum.div_ceil(count) as u32
    }
}

// The times of all buckets.
pub fn means(
    alloc: Global,
    free: &[u32],
    buckets: u32,
    sums: &[u64],
    counts: &[u64],
) -> Result<Vec<u32>, Memory>
    requires least { All (λ f. 1 ≤ f) free.now }
    requires most { All (λ f. f ≤ MOST_HORIZON) free.now }
    requires buckets { 1 ≤ buckets }
    requires size { length sums.now ≡ length free.now * buckets }
    requires many { length counts.now ≡ length sums.now }
    requires within { AreWithin (MOST_TRIPS * MOST_HORIZON) sums.now counts.now }
    ensures { IfOk result (λ times. AreMeans free.now buckets sums.now counts.now times.items
        (length sums.now)) }
{
    let mut times = Vec::with_capacity(alloc, sums.len())?;
    for place in 0..sums.len() {
        times.push(mean(free[place / buckets as usize], sums[place], counts[place]))?;
    }
    Ok(times)
}

// The free-flow steps for all buckets.
pub fn free_times(alloc: Global, free: &[u32], buckets: u32) -> Result<Vec<u32>, Memory>
    requires least { All (λ f. 1 ≤ f) free.now }
    requires few { length free.now ≤ MOST_LINKS }
    requires buckets { 1 ≤ buckets }
    ensures { IfOk result (λ times.
        AreFree free.now buckets times.items (length free.now * buckets)) }
{
    let cells = free.len() * buckets as usize;
    let mut times = Vec::with_capacity(alloc, cells)?;
    for place in 0..cells {
        times.push(free[place / buckets as usize])?;
    }
    Ok(times)
}

// The free-flow steps of a network's links.
pub fn free_steps(alloc: Global, net: &Net) -> Result<Vec<u32>, Memory>
    ensures steps { IfOk result (λ free. free.items ≡ steps_of_links net.now) }
    ensures sound { IsNet net.now }
{
    let count = net.link_count();
    let mut free = Vec::with_capacity(alloc, count as usize)?;
    for link in 0..count {
        free.push(net.link(LinkNo(link)).free)?;
    }
    Ok(free)
}

// Whether all numbers have 32 bits.
pub fn are_narrow(counts: &[u64]) -> bool
    ensures { IsTrue result ↔ All (λ n. n < 2 ^ 32) counts.now }
{
    for count in counts {
        if *count > u64::from(u32::MAX) {
            return false;
        }
    }
    true
}

// The numbers in 32 bits.
pub fn narrowed(alloc: Global, counts: &[u64]) -> Result<Vec<u32>, Memory>
    requires { All (λ n. n < 2 ^ 32) counts.now }
    ensures { IfOk result (λ narrow. narrow.items ≡ counts.now) }
{
    let mut narrow = Vec::with_capacity(alloc, counts.len())?;
    for count in counts {
        narrow.push(*count as u32)?;
    }
    Ok(narrow)
}
