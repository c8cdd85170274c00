// The next routes and the gap by themselves, where `run` makes both from one table of labels.
ghost use Rattle.dta_model.specs.Lent.{plan_of};
ghost use Rattle.dta_model.specs.LinkTimes.{table_of};
ghost use Rattle.dta_model.specs.Sound.{IsSound};
ghost use Rattle.link_times.specs.TimeTables.{IsShort};
ghost use Rattle.std.specs.Prelude.{◌≡◌, IfOk, length};

use crate::{Case, a_link_without_capacity};
use dta_model::{Loading, Route};
use gap::{GapLine, gap};
use link_times::LinkTimes;
use net_core::Memory;
use route_flows::{first_routes, next_routes};
use serial_loader::load_plain;
use std::alloc::Global;
use std::test::Fail;
use std::thread::Threads;
use trip_costs::WalkCosts;

// The link times of the plain loading, by buckets of 50 steps.
fn times_of(alloc: Global, loading: &Loading) -> Result<LinkTimes, Memory>
    requires { IsSound (plan_of loading.now) }
    ensures table { IfOk result (λ times. times ≡ table_of (plan_of loading.now) 50) }
    ensures many { IfOk result (λ times. length times.free ≡ length loading.now.net.now.links) }
    ensures short { IfOk result IsShort }
{
    let loaded = load_plain(alloc, loading)?;
    LinkTimes::of(alloc, loading, &loaded, 50)
}

// The number of links of a route.
fn length_of(route: &Option<Route>) -> usize {
    match route {
        Some(route) => route.as_slice().len(),
        None => 0,
    }
}

// The gap of the first routes of a case over the link times of their loading, and how many of the
// next routes have two links.
fn after_one<R: AllocGlobal + Threads + Sync>(
    rt: &R,
    case: &Case,
) -> Result<(GapLine, usize), Memory> {
    let alloc = rt.alloc();
    let loading = case.loading();
    let Loading {
        net,
        trips,
        horizon,
        ..
    } = loading;
    let first = first_routes(rt, net, trips, horizon, 4)?;
    let times = times_of(
        alloc,
        &Loading {
            routes: &first,
            ..loading
        },
    )?;
    let next = next_routes(rt, net, trips, WalkCosts::Links(&times), &first, 1, 1)?;
    let line = gap(alloc, net, WalkCosts::Links(&times), trips, &first)?;
    let over_two = next
        .as_slice()
        .iter()
        .filter(|&route| length_of(route) == 2);
    Ok((line, over_two.count()))
}

// Nobody gets onto the second link, so the first one takes 45 steps.
#[test]
fn a_gap_and_next_routes(rt: HostRuntime) -> Result<(), Fail> {
    let case = a_link_without_capacity(rt.alloc())?;
    let (line, over_two) = after_one(&rt, &case)?;
    let wanted = GapLine {
        route_steps: 165,
        least_steps: 165,
        gap_steps: 0,
        ppm: 0,
    };
    assert!(rt; line == wanted && over_two == 3);
    Ok(())
}
