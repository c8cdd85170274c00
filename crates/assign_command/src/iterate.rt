// The iterations of an assignment, with their watch lines and receipts.
ghost use Rattle.std.specs.Prelude.{◌≡◌, IfOk, IfErr};
ghost use Rattle.dta_model.specs.Loading.{journeys_of};
ghost use Rattle.loader.specs.Gates.{gate_of};
ghost use Rattle.assignment.specs.Lent.{IsAssignment, plan_in, settings_in, traffic_in};
ghost use Rattle.assignment.specs.Traffic.{AreRoutesOf};
ghost use Rattle.assign_command.specs.Calls.{LoadsIteration, OnlyWatches};
ghost use Rattle.commands.specs.Outputs.{AreSinceTold};
ghost use Rattle.assign_command.specs.Progress.{Halts, IsAssigned, IsMeasured};
ghost use Rattle.assign_command.specs.Receipts.{Gives, GivesOne, by_workers, numbers_in};
ghost use Rattle.assign_command.specs.declared.halt.Halt.TheVariants as halt;

use crate::halt::Halt;
use assignment::{Assignment, Iteration, advance, begin, finish};
use commands::{Iterated, counts_over};
use desk_io::Desk;
use dta_model::{Loaded, Routes, Steps};
use loader::Gate;
use route_flows::route_iterations;
use std::alloc::Global;
use std::thread::Threads;

// The iterations in which the vehicles took their last routes, where there is a start table.
fn since(alloc: Global, assignment: &Assignment) -> Result<Option<Steps>, Halt>
    requires { IsAssignment assignment.now }
    ensures told { let s = settings_in assignment.now in
        IfOk result (AreSinceTold s.start s (traffic_in assignment.now)) }
    ensures memory { IfErr result (λ why. why ≡ halt.Memory) }
{
    if !assignment.settings.start {
        return Ok(None);
    }
    let (net, trips, settings) = (assignment.net, assignment.trips, assignment.settings);
    let (by, iterations) = (settings.costs, settings.iterations);
    let numbers = route_iterations(alloc, by, net, trips, assignment.start, iterations)?;
    Ok(Some(numbers))
}

// Ends with the last iteration, which was loaded: its gap, the iterations of the routes where there
// is a start table, and its counts where the command asks for them.
fn measure_last<R: AllocGlobal + Threads + Sync>(
    rt: &R,
    assignment: &Assignment,
    it: Iteration,
    loaded: Loaded,
) -> Result<Iterated, Halt>
    requires is { IsAssignment assignment.now }
    requires routes { AreRoutesOf (traffic_in assignment.now) it.routes }
    requires loaded { loaded ≡ journeys_of (plan_in assignment.now it.routes) }
    ensures measured { IfOk result (IsMeasured (settings_in assignment.now)
        (traffic_in assignment.now) it.routes it.lines.items) }
    ensures memory { IfErr result (λ why. why ≡ halt.Memory) }
{
    let last = finish(rt, assignment, it, loaded)?;
    let since = since(rt.alloc(), assignment)?;
    let counts = counts_over(rt.alloc(), assignment, &last)?;
    Ok(Iterated {
        last,
        since,
        counts,
    })
}

/// Does all iterations of an assignment: the routes of each, its loading by the call that is given,
/// its costs and its gap. Where there is a watch, each puts its lines, the last one once it is
/// loaded. It waits for nothing but that call and the threads that search routes.
pub(crate) fn iterate<R: AllocGlobal + Threads + Sync, D: Desk, G: Gate, F>(
    rt: &R,
    assignment: &Assignment,
    gate: &mut G,
    desk: &mut D,
    load: F,
) -> Result<Iterated, Halt>
where
    F: Fn(&Routes, u32, &mut G, &mut D) -> Result<Loaded, Halt>,
    requires is { IsAssignment assignment.now }
    requires may { (routes : _) (number : _) (g : _) (d : _)
        → AreRoutesOf (traffic_in assignment.now) routes.now → F.pre load routes number g d }
    requires loads { (routes : _) (number : _) (g : _) (d : _) (r : _) (g' : _) (d' : _)
        → AreRoutesOf (traffic_in assignment.now) routes.now
        → F.post load routes number g d r g' d'
        → LoadsIteration assignment.now number routes.now (D.state d.now) (D.state d'.now) r }
    requires receipts { let shown = gate_of G.closes G.last in
        (routes : _) (number : _) (g : _) (d : _) (r : _) (g' : _) (d' : _)
        → AreRoutesOf (traffic_in assignment.now) routes.now
        → F.post load routes number g d r g' d'
        → GivesOne assignment.now (shown g.now) (shown g'.now) r }
    ensures watches { let s = settings_in assignment.now in
        let traffic = traffic_in assignment.now in
        OnlyWatches (IsAssigned s traffic) (Halts s traffic)
        (D.state desk.old) (D.state desk.new) result }
    ensures receipts { let shown = gate_of G.closes G.last in
        let s = settings_in assignment.now in
        Gives (by_workers s.plain s.iterations) (numbers_in s (traffic_in assignment.now))
        (shown gate.old) (shown gate.new) result }
{
    let mut it = begin(rt, assignment)?;
    let last = assignment.settings.iterations;
    for number in 1..last {
        let loaded = load(&it.routes, number, gate, desk)?;
        advance(rt, assignment, &mut it, loaded, number)?;
    }
    let loaded = load(&it.routes, last, gate, desk)?;
    measure_last(rt, assignment, it, loaded)
}
