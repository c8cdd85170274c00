// The scenarios of a sweep, a few at once.
ghost use Rattle.std.specs.Prelude.{◌≡◌, ◌<◌, ◌≤◌, ◌↔◌, ℕ, All, Err, IfOk, OnOk, get_or, length};
ghost use Rattle.std.specs.List.{AllZip};
ghost use Rattle.fixed_units.specs.declared.quantity.TheConstants.{MOST_THOUSANDTHS};
ghost use Rattle.dta_model.specs.Loading.{journeys_of};
ghost use Rattle.dta_model.specs.Release.{HaveWindows};
ghost use Rattle.assignment.specs.Lent.{IsAssignment, plan_in, settings_in, traffic_in};
ghost use Rattle.assignment.specs.Progress.{IsAssigned};
ghost use Rattle.assignment.specs.Traffic.{AreRoutesOf, AreTripsBelow};
ghost use Rattle.dta_words.specs.Ranges.{AreScales, AreSettings};
ghost use Rattle.dta_words.specs.declared.options.TheConstants.{GREATEST_SCALE};
ghost use Rattle.sweep.specs.Rounds.{AreKept};
ghost use Rattle.scaled_demand.specs.Scales.{AreAllWithin, IsFirstTooMany, scaled, trips_at};
ghost use Rattle.sweep.specs.Scenarios.{AreScenarios, IsScenario};
ghost use Rattle.scaled_demand.specs.declared.fault.SweepFault.TheVariants as fault;
ghost use Rattle.sweep.specs.declared.rounds.TheConstants.{MOST_AT_ONCE};
ghost use Rattle.vehicle_release.specs.Limits.{IsWithin};

use crate::scenario::{Scenario, Sweep};
use crate::scenario_texts::scenario_of;
use assignment::{Assigned, Assignment, advance, begin, finish};
use dta_model::{DemandCell, Loaded, Routes, Trip};
use dta_words::Settings;
use net_core::{Memory, Net};
use scaled_demand::{SweepFault, check_scales, scaled_cells};
use serial_loader::load_plain;
use start_table::StartRows;
use std::alloc::{AllocError, Global};
use std::thread;
use std::thread::Threads;
use vehicle_release::{ReleaseFault, release};

/// The most scenarios that are worked at once.
pub const MOST_AT_ONCE: u32 = 4;

/// The workers of a scenario: it is worked in its own thread.
const WORKERS: u32 = 1;

// The trips of a scenario that hasn't too many vehicles.
fn released(
    alloc: Global,
    settings: &Settings,
    cells: &[DemandCell],
    scale: u64,
) -> Result<Vec<Trip>, Memory>
    requires settings { AreSettings settings.now }
    requires volumes { All (λ cell. cell.volume ≤ MOST_THOUSANDTHS) cells.now }
    requires windows { HaveWindows settings.now.period cells.now }
    requires scale { scale ≤ GREATEST_SCALE }
    requires within { IsWithin (scaled scale cells.now) }
    ensures trips { IfOk result (λ trips. trips.items ≡ trips_at scale cells.now) }
    ensures below { IfOk result (λ trips. AreTripsBelow settings.now.horizon trips.items) }
{
    let scaled = scaled_cells(alloc, cells, scale)?;
    match release(alloc, &scaled) {
        Ok(trips) => Ok(trips),
        Err(ReleaseFault::TooMany { .. }) => unreachable!(),
        Err(ReleaseFault::Memory) => Err(AllocError),
    }
}

// The loading of an iteration over these routes.
fn load(alloc: Global, assignment: &Assignment, routes: &Routes) -> Result<Loaded, Memory>
    requires is { IsAssignment assignment.now }
    requires routes { AreRoutesOf (traffic_in assignment.now) routes.now }
    ensures { IfOk result (λ loaded.
        loaded ≡ journeys_of (plan_in assignment.now routes.now)) }
{
    let loading = assignment.loading(routes);
    let loaded = load_plain(alloc, &loading)?;
    Ok(loaded)
}

// The assignment, whose iterations are loaded plainly.
fn assign<R: AllocGlobal + Threads + Sync>(
    rt: &R,
    assignment: &Assignment,
) -> Result<Assigned, Memory>
    requires is { IsAssignment assignment.now }
    ensures { IfOk result (IsAssigned (settings_in assignment.now) (traffic_in assignment.now)) }
{
    let mut it = begin(rt, assignment)?;
    for iteration in 1..assignment.settings.iterations {
        let loaded = load(rt.alloc(), assignment, &it.routes)?;
        advance(rt, assignment, &mut it, loaded, iteration)?;
    }
    let last = load(rt.alloc(), assignment, &it.routes)?;
    let assigned = finish(rt, assignment, it, last)?;
    Ok(assigned)
}

// The scenario of a scale.
fn worked<R: AllocGlobal + Threads + Sync>(
    rt: &R,
    settings: &Settings,
    net: &Net,
    cells: &[DemandCell],
    scale: u64,
) -> Result<Scenario, Memory>
    requires settings { AreSettings settings.now }
    requires volumes { All (λ cell. cell.volume ≤ MOST_THOUSANDTHS) cells.now }
    requires windows { HaveWindows settings.now.period cells.now }
    requires scale { scale ≤ GREATEST_SCALE }
    requires within { IsWithin (scaled scale cells.now) }
    ensures { IfOk result (IsScenario settings.now net.now cells.now scale) }
{
    let alloc = rt.alloc();
    let _sound = net.link_count();
    let trips = released(alloc, settings, cells, scale)?;
    let start = StartRows::new(alloc);
    let assignment = Assignment {
        settings,
        net,
        trips: trips.as_slice(),
        start: &start,
        workers: WORKERS,
    };
    let assigned = assign(rt, &assignment)?;
    let scenario = scenario_of(alloc, &assignment, &assigned, scale)?;
    Ok(scenario)
}

// The scenarios of a few scales, worked side by side: each comes, or memory is wanting for it.
fn side_by_side<R: AllocGlobal + Threads + Sync>(
    rt: &R,
    settings: &Settings,
    net: &Net,
    cells: &[DemandCell],
    scales: &[u64],
) -> Result<Vec<Result<Scenario, Memory>>, Memory>
    requires settings { AreSettings settings.now }
    requires volumes { All (λ cell. cell.volume ≤ MOST_THOUSANDTHS) cells.now }
    requires windows { HaveWindows settings.now.period cells.now }
    requires scales { All (λ scale. scale ≤ GREATEST_SCALE) scales.now }
    requires within { AreAllWithin cells.now scales.now }
    ensures { IfOk result (λ all. AllZip (λ scale one.
        IfOk one (IsScenario settings.now net.now cells.now scale)) scales.now all.items) }
{
    let one = |place: usize| -> Result<Scenario, Memory>
        requires { AreSettings settings.now
            × All (λ cell. cell.volume ≤ MOST_THOUSANDTHS) cells.now
            × HaveWindows settings.now.period cells.now
            × All (λ scale. scale ≤ GREATEST_SCALE) scales.now
            × AreAllWithin cells.now scales.now × (place < length scales.now) }
        ensures { IfOk result (IsScenario settings.entry.now net.entry.now cells.entry.now
            (get_or scales.entry.now place 0)) }
    { worked(rt, settings, net, cells, scales[place]) };
    let all = thread::map_indices(rt, rt.alloc(), scales.len(), &one)?;
    Ok(all)
}

// Keeps the scenarios of a round.
fn keep(kept: &mut Vec<Scenario>, round: Vec<Result<Scenario, Memory>>) -> Result<(), Memory>
    ensures { OnOk result (AreKept kept.old.items round.items kept.new.items) }
{
    for one in round {
        kept.push(one?)?;
    }
    Ok(())
}

// How many scenarios are worked at once: at most four, and at most as many as there are workers.
fn scenarios_at_once(workers: u32) -> usize
    requires { 1 ≤ workers }
    ensures some { 1 ≤ result }
    ensures few { (result ≤ workers) × (result ≤ MOST_AT_ONCE) }
{
    workers.min(MOST_AT_ONCE) as usize
}

// The scenarios of all scales, a round of consecutive ones after another.
fn all_scenarios<R: AllocGlobal + Threads + Sync>(
    rt: &R,
    settings: &Settings,
    net: &Net,
    cells: &[DemandCell],
    scales: &[u64],
    workers: u32,
) -> Result<Vec<Scenario>, Memory>
    requires settings { AreSettings settings.now }
    requires volumes { All (λ cell. cell.volume ≤ MOST_THOUSANDTHS) cells.now }
    requires windows { HaveWindows settings.now.period cells.now }
    requires scales { All (λ scale. scale ≤ GREATEST_SCALE) scales.now }
    requires within { AreAllWithin cells.now scales.now }
    requires workers { 1 ≤ workers }
    ensures { IfOk result (λ all.
        AreScenarios settings.now net.now cells.now scales.now all.items) }
{
    let at_once = scenarios_at_once(workers);
    let mut kept = Vec::new(rt.alloc());
    let mut from = 0;
    'round: while from < scales.len() {
        let to = (from + at_once).min(scales.len());
        let round = side_by_side(rt, settings, net, cells, &scales[from..to])?;
        keep(&mut kept, round)?;
        from = to;
    }
    Ok(kept)
}

/// The scenarios of a demand's scales over a network. At most four scenarios, and at most as many
/// as there are workers, are worked at once, each in its own thread: a round of consecutive scales
/// after another. Too many vehicles are told before any scenario is worked. Volumes and scales are
/// in thousandths.
pub fn sweep<R: AllocGlobal + Threads + Sync>(
    rt: &R,
    net: &Net,
    cells: &[DemandCell],
    settings: &Settings,
    scales: &[u64],
    workers: u32,
) -> Result<Sweep, SweepFault>
    requires settings { AreSettings settings.now }
    requires scales { AreScales scales.now }
    requires volumes { All (λ cell. cell.volume ≤ MOST_THOUSANDTHS) cells.now }
    requires windows { HaveWindows settings.now.period cells.now }
    requires workers { 1 ≤ workers }
    ensures scenarios { IfOk result (AreScenarios settings.now net.now cells.now scales.now) }

    // A scenario is told exactly where it is the first with too many vehicles.
    ensures too_many { (scenario line total : ℕ) →
        (result ≡ Err (fault.TooMany scenario line total))
        ↔ IsFirstTooMany cells.now scales.now scenario line total }
    ensures ok_within { OnOk result (AreAllWithin cells.now scales.now) }
    ensures memory_within { result ≡ Err fault.Memory → AreAllWithin cells.now scales.now }
{
    check_scales(cells, scales)?;
    let all = all_scenarios(rt, settings, net, cells, scales, workers)?;
    Ok(Sweep::of(all))
}
