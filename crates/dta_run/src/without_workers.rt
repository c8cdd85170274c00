// The runs that take no workers: nothing in them waits for another thread, so they end.
ghost use Rattle.std.specs.Prelude.{◌≡◌, ◌≤◌, ℕ, List, Some, false};
ghost use Rattle.dta_words.specs.Grammar.{settings_of};
ghost use Rattle.dta_words.specs.Ranges.{AreSettings};
ghost use Rattle.loader.specs.Gates.{GateState};
ghost use Rattle.jobs.specs.Jobs.{IsJob};
ghost use Rattle.jobs.specs.Kinds.{IsFor, rows_in_job};
ghost use Rattle.commands.specs.Calls.{DoesWork};
ghost use Rattle.dta_run.specs.Headline.{Headline};
ghost use Rattle.dta_run.specs.Receipts.{takes_workers};

use crate::accepted::accept_and_work;
use assign_command::assign_plainly;
use commands::{Status, put_least_times, put_scenarios, put_verdict};
use desk_io::{Desk, Failed};
use dta_words::{Command, Settings};
use jobs::Job;
use loader::NoGate;
use reports::put_free;
use std::thread::Threads;

/// Whether a run with these settings loads by workers: that of `assign`, `demo` and `counts` does,
/// unless the plain loader is asked for.
pub fn takes_workers(settings: &Settings) -> bool
    ensures { result ≡ takes_workers settings.now }
{
    match settings.command {
        Command::Assign | Command::Demo(_) | Command::Counts => !settings.plain,
        Command::Freeflow | Command::Skim | Command::Sweep | Command::Audit => false,
    }
}

// Does the work over an accepted job. Its loadings are plain.
fn work<R: AllocGlobal + Threads + Sync, D: Desk>(
    rt: &R,
    settings: &Settings,
    job: &Job,
    desk: &mut D,
) -> Status
    requires settings { AreSettings settings.now }
    requires job { IsJob settings.now (rows_in_job job.now) }
    requires own { IsFor settings.now.command job.now }
    ensures { DoesWork settings.now (rows_in_job job.now)
        (D.state desk.old) (D.state desk.new) result }
{
    match job {
        Job::Freeflow(net) => match put_free(desk, net) {
            Ok(()) => Status::Done,
            Err(Failed) => Status::WriteFault,
        },
        Job::Assign(job) => assign_plainly(rt, settings, job, desk),
        Job::Skim(job) => put_least_times(rt.alloc(), settings, job, desk),
        Job::Sweep(job) => put_scenarios(rt, settings, job, desk),
        Job::Audit(job) => put_verdict(rt.alloc(), settings, job, desk),
    }
}

/// Does what settings ask for that take no workers. It has the promise of [`run`](crate::run), and
/// takes no gate. It takes no handle by which it could wait for another thread, so it ends.
pub fn run_without_workers<R: AllocGlobal + Threads + Sync, D: Desk>(
    rt: &R,
    settings: &Settings,
    desk: &mut D,
) -> Status
    requires settings { AreSettings settings.now }
    requires alone { takes_workers settings.now ≡ false }
    ensures headline { (words : List (List ℕ)) (gate : GateState)
        → settings_of words ≡ Some settings.now
        → Headline words result (D.state desk.old) (D.state desk.new) gate gate }
    ensures reads { (D.state desk.old).read_faults ≤ (D.state desk.new).read_faults }
    ensures puts { (D.state desk.old).put_faults ≤ (D.state desk.new).put_faults }
{
    accept_and_work(
        rt.alloc(),
        settings,
        &mut NoGate,
        desk,
        |job, _, desk|
            requires { AreSettings settings.now × IsJob settings.now (rows_in_job job.now)
                × IsFor settings.now.command job.now }
        { work(rt, settings, job, desk) },
    )
}
