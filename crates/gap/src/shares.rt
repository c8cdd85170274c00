// The steps of all routes, summed by shares of the vehicles side by side.
ghost use Rattle.std.specs.Prelude.{◌≡◌, ℕ, ◌+◌, ◌*◌, ◌<◌, ◌≤◌, ◌^◌, length, min, sum, All, IfOk};
ghost use Rattle.gap.specs.RouteTimes.{over_vehicles};
ghost use Rattle.gap.specs.Shares.{AreRoutes, IsPart, steps_over};
ghost use Rattle.time_routes.specs.declared.shares.TheConstants.{MOST_SHARES};

use crate::measure::steps_between;
use crate::timed_trips::TimedTrips;
use dta_model::Route;
use net_core::Memory;
use std::thread;
use std::thread::Threads;
use time_routes::MOST_SHARES;

// The steps of the routes of a share, summed.
fn share_steps(timed: &TimedTrips, routes: &[Option<Route>], size: usize, share: usize) -> u128
    requires routes { AreRoutes timed.now routes.now }
    requires share { share < MOST_SHARES }
    ensures { IsPart (steps_over timed.now routes.now) size (length timed.now.trips.now) share
        result }
{
    let count = timed.trips.len();
    let from = share.saturating_mul(size).min(count);
    let to = (share + 1).saturating_mul(size).min(count);
    steps_between(timed, routes, from, to)
}

// The sum of a few parts.
fn sum_of(parts: &[u128]) -> u128
    requires few { length parts.now ≤ MOST_SHARES }
    requires low { All (λ x. x ≤ 2 ^ 103) parts.now }
    ensures { result ≡ sum parts.now }
{
    let mut total: u128 = 0;
    for part in parts {
        total += *part;
    }
    total
}

/// The steps of all routes, summed by shares of the vehicles side by side: at most four, and at
/// most as many as there are workers.
pub(crate) fn route_steps_by_shares<R: AllocGlobal + Threads + Sync>(
    rt: &R,
    timed: &TimedTrips,
    routes: &[Option<Route>],
    workers: u32,
) -> Result<u128, Memory>
    requires routes { AreRoutes timed.now routes.now }
    requires workers { 1 ≤ workers }
    ensures is { IfOk result (λ total. total ≡ over_vehicles (length timed.now.trips.now)
        (steps_over timed.now routes.now)) }
    ensures low { IfOk result (λ total. total < 2 ^ 106) }
{
    let shares = workers.min(MOST_SHARES) as usize;
    let size = timed.trips.len().div_ceil(shares);
    let part = |share: usize| -> u128
        requires { AreRoutes timed.now routes.now × (share < MOST_SHARES) }
        ensures { IsPart (steps_over timed.entry.now routes.entry.now) size
            (length timed.entry.now.trips.now) share result }
    { share_steps(timed, routes, size, share) };
    let parts = thread::map_indices(rt, rt.alloc(), shares, &part)?;
    Ok(sum_of(&parts))
}
