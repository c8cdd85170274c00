// The work of `sweep`: the assignments for multiples of the demand, and their texts.
ghost use Rattle.std.specs.Prelude.{◌≡◌};
ghost use Rattle.dta_words.specs.Ranges.{AreSettings};
ghost use Rattle.commands.specs.Calls.{DoesWork};
ghost use Rattle.jobs.specs.Inputs.{Sweeping, kind_of};
ghost use Rattle.jobs.specs.Jobs.{IsJob};
ghost use Rattle.jobs.specs.Kinds.{sweep_rows};

use crate::status::Status;
use desk_io::{Desk, Failed};
use dta_words::Settings;
use jobs::SweepJob;
use std::thread::Threads;
use sweep::{SweepFault, put_sweep, sweep};

/// Does the work of `sweep` over an accepted job. No memory is taken after the first byte of
/// Sweep.
pub fn put_scenarios<R: AllocGlobal + Threads + Sync, D: Desk>(
    rt: &R,
    settings: &Settings,
    job: &SweepJob,
    desk: &mut D,
) -> Status
    requires settings { AreSettings settings.now }
    requires job { IsJob settings.now (sweep_rows job.now) }
    requires kind { kind_of settings.now.command ≡ Sweeping }
    ensures { DoesWork settings.now (sweep_rows job.now)
        (D.state desk.old) (D.state desk.new) result }
{
    let scales = settings.scales.as_slice();
    match sweep(
        rt,
        &job.net,
        &job.demand_cells,
        settings,
        scales,
        settings.workers,
    ) {
        Ok(sweep) => match put_sweep(desk, &sweep) {
            Ok(()) => Status::Done,
            Err(Failed) => Status::WriteFault,
        },
        Err(SweepFault::TooMany { .. }) => unreachable!(),
        Err(SweepFault::Memory) => Status::Memory,
    }
}
