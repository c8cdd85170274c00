// How many shares of the zones are worked side by side.
ghost use Rattle.std.specs.Prelude.{◌≡◌, ◌≤◌, length, IfOk};
ghost use Rattle.time_routes.specs.declared.shares.TheConstants.{MOST_SHARES};

use labels::{NARROW_FAR, Router, most_time, most_wait, router_of};
use link_times::LinkTimes;
use net_core::{LinkNo, Memory, Net};
use std::alloc::Global;

/// The most shares in which zones, or vehicles, are worked side by side.
pub const MOST_SHARES: u32 = 4;

// The most tables of labels that are there at once, of eight bytes for each link and step.
const MOST_TABLES: u64 = 4;

// The tables of eight bytes for each state and step that the labels of a group fill: two in 16 or
// 32 bits whatever the number of its zones, and else one for each of its zones, which are four at
// most.
const NARROW_TABLES: u64 = 2;

const WIDE_TABLES: u64 = 4;

// The greatest time of the links from the horizon on.
fn most_free(times: &LinkTimes, links: u32) -> u32
    requires { links ≡ length times.now.free }
{
    let horizon = times.horizon() as u64;
    let mut most = 0u32;
    for link in 0..links {
        most = most.max(times.at(LinkNo(link), horizon));
    }
    most
}

// Whether the labels of every group surely fit 32 bits. No tail takes more than all states one
// after another.
fn are_narrow(router: &Router, times: &LinkTimes, links: u32) -> bool
    requires { links ≡ length times.now.free }
{
    let wait = most_wait(router) as u64;
    let longest = wait + most_time(times, links) as u64;
    let free = most_free(times, links) as u64;
    let tail = (wait + free).saturating_mul(router.state_count() as u64);
    tail.saturating_add(times.horizon() as u64 + 2 * longest) < NARROW_FAR as u64
}

/// In how many shares zones are worked side by side: at most as many as there are workers, at most
/// four, and no more than there may be tables of labels for.
pub(crate) fn share_count(
    alloc: Global,
    net: &Net,
    times: &LinkTimes,
    workers: u32,
) -> Result<u64, Memory>
    requires table { length times.now.free ≡ length net.now.links }
    requires workers { 1 ≤ workers }
    ensures some { IfOk result (λ shares. 1 ≤ shares) }
    ensures few { IfOk result (λ shares. (shares ≤ workers) × (shares ≤ MOST_SHARES)) }
{
    let links = net.link_count();
    let router = router_of(alloc, net)?;
    let tables = if are_narrow(&router, times, links) {
        NARROW_TABLES
    } else {
        WIDE_TABLES
    };
    let states = router.state_count() as u64;
    let groups = MOST_TABLES * links as u64 / tables.saturating_mul(states).max(1);
    Ok(groups.clamp(1, MOST_SHARES.min(workers) as u64))
}
