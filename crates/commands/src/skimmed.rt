// The work of `skim`: least times between all zones, and their texts.
ghost use Rattle.std.specs.Prelude.{◌≡◌, IfOk};
ghost use Rattle.dta_model.specs.LinkTimes.{time_at};
ghost use Rattle.dta_words.specs.Ranges.{AreSettings};
ghost use Rattle.skims.specs.GivenTimes.{table_given};
ghost use Rattle.skims.specs.Skim.{IsSkim};
ghost use Rattle.commands.specs.Calls.{DoesWork};
ghost use Rattle.jobs.specs.Inputs.{Skimming, kind_of};
ghost use Rattle.jobs.specs.Jobs.{IsJob};
ghost use Rattle.jobs.specs.Kinds.{skim_rows};

use crate::status::Status;
use desk_io::{Desk, Failed, Memory};
use dta_words::Settings;
use jobs::SkimJob;
use skims::{Skim, put_skim, skim, times_of};
use std::alloc::Global;

// The least times between all zones, by the job's link times.
fn least_times(alloc: Global, settings: &Settings, job: &SkimJob) -> Result<Skim, Memory>
    requires settings { AreSettings settings.now }
    requires job { IsJob settings.now (skim_rows job.now) }
    requires kind { kind_of settings.now.command ≡ Skimming }
    ensures { IfOk result (IsSkim (time_at (table_given job.now.net settings.now.bucket
        settings.now.horizon job.now.times)) job.now.net settings.now.starts) }
{
    let times = times_of(
        alloc,
        &job.net,
        &job.times,
        settings.bucket,
        settings.horizon,
    )?;
    skim(alloc, &job.net, &times, settings.starts.as_slice())
}

/// Does the work of `skim` over an accepted job. No memory is taken after the first byte of Skim.
pub fn put_least_times<D: Desk>(
    alloc: Global,
    settings: &Settings,
    job: &SkimJob,
    desk: &mut D,
) -> Status
    requires settings { AreSettings settings.now }
    requires job { IsJob settings.now (skim_rows job.now) }
    requires kind { kind_of settings.now.command ≡ Skimming }
    ensures { DoesWork settings.now (skim_rows job.now)
        (D.state desk.old) (D.state desk.new) result }
{
    match least_times(alloc, settings, job) {
        Ok(skim) => match put_skim(desk, &job.net, &skim) {
            Ok(()) => Status::Done,
            Err(Failed) => Status::WriteFault,
        },
        Err(_) => Status::Memory,
    }
}
