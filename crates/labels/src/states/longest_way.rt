// The longest that a way on may take.
ghost use Rattle.std.specs.Prelude.{◌≡◌, ℕ, ◌<◌, ◌≤◌, length, All};
ghost use Rattle.fixed_units.specs.declared.turn.TheConstants.{MOST_PENALTY_STEPS};
ghost use Rattle.dta_model.specs.LinkTimes.{time_at};

use crate::states::router::Router;
use link_times::LinkTimes;
use net_core::LinkNo;

/// The greatest penalty of a way on.
pub fn most_wait(router: &Router) -> u32
    ensures most { All (λ w. w.wait ≤ result) router.now.ways.items }
    ensures low { result ≤ MOST_PENALTY_STEPS }
{
    let mut most = 0u32;
    for place in 0..router.ways.len() {
        most = most.max(router.ways[place].wait);
    }
    most
}

// The greatest time of a link, over all its buckets and from the horizon on.
fn most_of(times: &LinkTimes, link: u32) -> u32
    requires { link < length times.now.free }
    ensures { (e : ℕ) → time_at times.now link e ≤ result }
{
    let _some = times.bucket_steps();
    let mut most = times.at(LinkNo(link), times.horizon() as u64);
    for bucket in 0..times.buckets() {
        most = most.max(times.in_bucket(LinkNo(link), bucket));
    }
    most
}

/// The greatest time of the links.
pub fn most_time(times: &LinkTimes, links: u32) -> u32
    requires { links ≡ length times.now.free }
    ensures { (l e : ℕ) → l < links → time_at times.now l e ≤ result }
{
    let mut most = 0u32;
    for link in 0..links {
        most = most.max(most_of(times, link));
    }
    most
}
