// The loading of an iteration: by workers, or by the plain loader.
ghost use Rattle.std.specs.Prelude.{◌≡◌, false};
ghost use Rattle.pending_text.specs.Outs.{PutsAll};
ghost use Rattle.loader.specs.Gates.{gate_of};
ghost use Rattle.assignment.specs.Lent.{IsAssignment, settings_in, traffic_in};
ghost use Rattle.assignment.specs.Traffic.{AreRoutesOf};
ghost use Rattle.assign_command.specs.Calls.{LoadsIteration};
ghost use Rattle.assign_command.specs.Receipts.{GivesOne};
ghost use Rattle.commands.specs.Texts.{end_lines};

use crate::halt::Halt;
use assignment::Assignment;
use desk_io::{Desk, Failed};
use dta_model::{Eight, Loaded, Routes};
use dta_words::Settings;
use final_state::final_state;
use loader::{Gate, Watch, load};
use reports::put_watch;
use serial_loader::load_plain;
use std::alloc::Global;
use std::sync::Wait;
use std::thread::Threads;

// Puts the watch line of the state after the last step, where there is a watch.
#[tactic(auto, using(pending_text::proofs::OutFacts::parts))]
fn watch<D: Desk>(
    settings: &Settings,
    iteration: u32,
    end: &Eight,
    desk: &mut D,
) -> Result<(), Failed>
    ensures { PutsAll (end_lines settings.now.watch iteration end.now)
        (D.state desk.old) (D.state desk.new) result }
{
    if settings.watch == 0 {
        return Ok(());
    }
    put_watch(desk, iteration, end)
}

/// Loads an iteration by the plain loader, and then puts the watch line of the last step.
pub(crate) fn load_plainly<D: Desk>(
    alloc: Global,
    assignment: &Assignment,
    routes: &Routes,
    iteration: u32,
    desk: &mut D,
) -> Result<Loaded, Halt>
    requires is { IsAssignment assignment.now }
    requires routes { AreRoutesOf (traffic_in assignment.now) routes.now }
    ensures { LoadsIteration assignment.now iteration routes.now
        (D.state desk.old) (D.state desk.new) result }
{
    let loading = assignment.loading(routes);
    let loaded = load_plain(alloc, &loading)?;
    let end = final_state(&loading, &loaded);
    watch(assignment.settings, iteration, &end, desk)?;
    Ok(loaded)
}

/// Loads an iteration by workers, of which the calling thread puts the watch lines meanwhile.
pub(crate) fn load_by_workers<
    R: AllocGlobal + Threads + Wait + Sync,
    D: Desk + Send,
    G: Gate + Sync,
>(
    rt: &R,
    assignment: &Assignment,
    routes: &Routes,
    iteration: u32,
    gate: &mut G,
    desk: &mut D,
) -> Result<Loaded, Halt>
    requires is { IsAssignment assignment.now }
    requires routes { AreRoutesOf (traffic_in assignment.now) routes.now }
    requires workers { (settings_in assignment.now).plain ≡ false }
    ensures loads { LoadsIteration assignment.now iteration routes.now
        (D.state desk.old) (D.state desk.new) result }
    ensures receipts { let shown = gate_of G.closes G.last in
        GivesOne assignment.now (shown gate.old) (shown gate.new) result }
{
    let loading = assignment.loading(routes);
    let watch = Watch {
        iteration,
        every: assignment.settings.watch,
    };
    let loaded = load(rt, &loading, assignment.settings.workers, gate, desk, watch)?;
    Ok(loaded)
}
