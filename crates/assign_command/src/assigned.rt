// The work of an assignment: its iterations, and then its outputs.
ghost use Rattle.std.specs.Prelude.{◌≡◌, ◌≢◌, false, OnErr, Result};
ghost use Rattle.std.specs.Thread.{IsSync};
ghost use Rattle.desk_io.specs.State.{DeskState};
ghost use Rattle.dta_words.specs.Ranges.{AreSettings};
ghost use Rattle.loader.specs.Gates.{gate_of};
ghost use Rattle.assignment.specs.Lent.{IsAssignment, settings_in, traffic_in};
ghost use Rattle.assignment.specs.Traffic.{AreRoutesOf};
ghost use Rattle.jobs.specs.Inputs.{Assigns};
ghost use Rattle.jobs.specs.Jobs.{IsJob, JobRows, traffic_of};
ghost use Rattle.jobs.specs.Kinds.{assign_rows};
ghost use Rattle.commands.specs.Calls.{DoesWork};
ghost use Rattle.commands.specs.declared.status.Status.TheVariants as status;
ghost use Rattle.assign_command.specs.Calls.{OnlyWatches};
ghost use Rattle.assign_command.specs.Progress.{Halts, IsAssigned};
ghost use Rattle.assign_command.specs.Receipts.{WorkGives};

use crate::halt::Halt;
use crate::iterate::iterate;
use crate::load::{load_by_workers, load_plainly};
use assignment::Assignment;
use commands::{Iterated, Status, put_assigned};
use desk_io::{Desk, Failed};
use dta_words::Settings;
use jobs::AssignJob;
use loader::{Gate, NoGate};
use std::sync::Wait;
use std::thread::Threads;

// Puts the outputs of an assignment whose iterations came to this, and answers its status.
#[tactic(auto, using(crate::proofs::AssignFacts::halts))]
fn put_outcome<D: Desk>(
    desk: &mut D,
    assignment: &Assignment,
    outcome: Result<Iterated, Halt>,
) -> Status
    requires is { IsAssignment assignment.now }
    requires command { Assigns (settings_in assignment.now).command }
    requires watches { let s = settings_in assignment.now in
        let traffic = traffic_in assignment.now in
        (start : DeskState) × OnlyWatches (IsAssigned s traffic) (Halts s traffic)
        start (D.state desk.old) outcome }
    ensures halted { OnErr outcome (result ≢ status.Done) }
    ensures works { let s = settings_in assignment.now in
        let traffic = traffic_in assignment.now in
        (start : DeskState) (job : JobRows) → traffic ≡ traffic_of job
        → OnlyWatches (IsAssigned s traffic) (Halts s traffic) start (D.state desk.old) outcome
        → DoesWork s job start (D.state desk.new) result }
{
    match outcome {
        Ok(iterated) => match put_assigned(desk, assignment, &iterated) {
            Ok(()) => Status::Done,
            Err(Failed) => Status::WriteFault,
        },
        Err(Halt::Watch) => Status::WriteFault,
        Err(Halt::Memory) => Status::Memory,
    }
}

/// Does the iterations of an assignment, loaded by the plain loader whatever its settings say, and
/// puts its outputs. It takes no gate and waits for no worker, so it ends.
pub fn assign_plainly<R: AllocGlobal + Threads + Sync, D: Desk>(
    rt: &R,
    settings: &Settings,
    job: &AssignJob,
    desk: &mut D,
) -> Status
    requires settings { AreSettings settings.now }
    requires job { IsJob settings.now (assign_rows job.now) }
    requires command { Assigns settings.now.command }
    ensures { DoesWork settings.now (assign_rows job.now)
        (D.state desk.old) (D.state desk.new) result }
{
    let assignment = job.assignment(settings);
    let outcome = iterate(
        rt,
        &assignment,
        &mut NoGate,
        desk,
        |routes, number, _, desk|
            requires { IsAssignment assignment
                × AreRoutesOf (traffic_in assignment) routes.now }
        { load_plainly(rt.alloc(), &assignment, routes, number, desk) },
    );
    put_outcome(desk, &assignment, outcome)
}

/// Does the iterations of an assignment, loaded by workers or, where the settings ask for it, by
/// the plain loader, and puts its outputs.
#[tactic(auto, using(crate::proofs::ReceiptFacts::plainly))]
pub fn assign<R: AllocGlobal + Threads + Wait + Sync, D: Desk + Send, G: Gate + Sync>(
    rt: &R,
    settings: &Settings,
    job: &AssignJob,
    gate: &mut G,
    desk: &mut D,
) -> Status
    requires settings { AreSettings settings.now }
    requires job { IsJob settings.now (assign_rows job.now) }
    requires command { Assigns settings.now.command }
    ensures works { DoesWork settings.now (assign_rows job.now)
        (D.state desk.old) (D.state desk.new) result }
    ensures receipts { let shown = gate_of G.closes G.last in
        WorkGives settings.now (assign_rows job.now) result (shown gate.old) (shown gate.new) }
{
    if settings.plain {
        return assign_plainly(rt, settings, job, desk);
    }
    let assignment = job.assignment(settings);
    let outcome = iterate(
        rt,
        &assignment,
        gate,
        desk,
        |routes, number, gate, desk|
            requires { IsSync R.row × IsSync G.row × IsAssignment assignment
                × AreRoutesOf (traffic_in assignment) routes.now
                × ((settings_in assignment).plain ≡ false) }
        { load_by_workers(rt, &assignment, routes, number, gate, desk) },
    );
    put_outcome(desk, &assignment, outcome)
}
