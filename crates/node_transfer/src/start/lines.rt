// Waiting lines at the start of a loading.
ghost use Rattle.dta_model.specs.Lent.{plan_of};
ghost use Rattle.dta_model.specs.Plans.{link_numbers};
ghost use Rattle.dta_model.specs.Sound.{IsSound};
ghost use Rattle.link_queues.specs.Riders.{setting_out};
ghost use Rattle.node_transfer.specs.Inside.StartLines.{empty_lines as lines_without};
ghost use Rattle.node_transfer.specs.Inside.StartLines.{lines_at_start, put_last};
ghost use Rattle.std.specs.Prelude.{◌≡◌, ◌<◌, All, IfOk, OnOk, length};

use dta_model::{Loading, Route};
use link_queues::{Line, MOST_RIDERS, Rider};
use net_core::Memory;
use std::alloc::Global;

/// The waiting line of each link before the first step: the vehicles whose routes begin there, in
/// order of number.
pub fn waiting_lines(alloc: Global, loading: &Loading) -> Result<Vec<Line>, Memory>
    requires { IsSound (plan_of loading.now) }
    ensures { IfOk result (λ lines. lines.items ≡ lines_at_start (plan_of loading.now)) }
{
    let mut lines = empty_lines(alloc, loading.net.link_count())?;
    put_riders(alloc, loading, &mut lines)?;
    Ok(lines)
}

// So many lines without riders.
#[tactic(auto, using(crate::proofs::OfStart::Starts::start_steps))]
fn empty_lines(alloc: Global, count: u32) -> Result<Vec<Line>, Memory>
    ensures { IfOk result (λ lines. lines.items ≡ lines_without count) }
{
    let mut lines = Vec::new(alloc);
    for b in 0..count {
        lines.push(Line::new(alloc))?;
    }
    Ok(lines)
}

// Puts a rider for each vehicle that has a route last in the line of its first link.
fn put_riders(alloc: Global, loading: &Loading, lines: &mut [Line]) -> Result<(), Memory>
    requires sound { IsSound (plan_of loading.now) }
    requires empty { lines.old ≡ lines_without (length loading.now.net.now.links) }
    ensures { OnOk result (lines.new ≡ lines_at_start (plan_of loading.now)) }
{
    for v in 0..loading.trips.len() {
        let departure = loading.trips[v].departure;
        if let Some(route) = loading.routes.get(v as u32) {
            put_rider(alloc, v as u32, departure, route, lines)?;
        }
    }
    Ok(())
}

// Puts a rider last in the line of the first link of its route.
fn put_rider(
    alloc: Global,
    number: u32,
    departure: u32,
    route: &Route,
    lines: &mut [Line],
) -> Result<(), Memory>
    requires links { All (λ l. l < length lines.old) (link_numbers route.now) }
    requires fits { All (λ line. length line < MOST_RIDERS) lines.old }
    ensures { OnOk result (lines.new
        ≡ put_last (setting_out number departure (link_numbers route.now)) lines.old) }
{
    match route.as_slice().first() {
        None => Ok(()),
        Some(link) => {
            let rider = Rider::new(alloc, number, departure, route)?;
            lines[link.0 as usize].push(rider)?;
            Ok(())
        }
    }
}
