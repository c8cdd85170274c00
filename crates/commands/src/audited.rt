// The work of `audit`: the verdict on an agent table and a table of link times.
ghost use Rattle.std.specs.Prelude.{◌≡◌, IfOk};
ghost use Rattle.dta_words.specs.Ranges.{AreSettings};
ghost use Rattle.commands.specs.Calls.{DoesWork};
ghost use Rattle.jobs.specs.Inputs.{Auditing, kind_of};
ghost use Rattle.jobs.specs.Jobs.{IsJob};
ghost use Rattle.jobs.specs.Kinds.{audit_rows};
ghost use Rattle.commands.specs.Outputs.{IsAudited};

use crate::status::Status;
use audit::{Plan, Verdict, audit};
use desk_io::{Desk, Failed, Memory};
use dta_words::Settings;
use jobs::AuditJob;
use reports::{Place, put_audit};
use std::alloc::Global;

// The verdict on the agents and the link times of a job.
fn verdict_of(alloc: Global, settings: &Settings, job: &AuditJob) -> Result<Verdict, Memory>
    requires settings { AreSettings settings.now }
    requires job { IsJob settings.now (audit_rows job.now) }
    requires kind { kind_of settings.now.command ≡ Auditing }
    ensures { IfOk result (IsAudited settings.now (audit_rows job.now)) }
{
    let plan = Plan {
        queue: settings.queue,
        delta: settings.units.delta,
        horizon: settings.horizon,
        bucket: settings.bucket,
    };
    audit(alloc, &job.net, &job.trips, &job.agents, &job.times, &plan)
}

/// Does the work of `audit` over an accepted job. A difference is told also where its line can't
/// be put.
pub fn put_verdict<D: Desk>(
    alloc: Global,
    settings: &Settings,
    job: &AuditJob,
    desk: &mut D,
) -> Status
    requires settings { AreSettings settings.now }
    requires job { IsJob settings.now (audit_rows job.now) }
    requires kind { kind_of settings.now.command ≡ Auditing }
    ensures { DoesWork settings.now (audit_rows job.now)
        (D.state desk.old) (D.state desk.new) result }
{
    let vehicles = job.trips.len() as u32;
    match verdict_of(alloc, settings, job) {
        Ok(Verdict::Yes) => match put_audit(desk, &job.net, vehicles, None) {
            Ok(()) => Status::Done,
            Err(Failed) => Status::WriteFault,
        },
        Ok(
            Verdict::No {
                table,
                line,
                column,
            },
        ) => {
            let place = Place {
                table,
                line,
                column,
            };
            let _ = put_audit(desk, &job.net, vehicles, Some(&place));
            Status::Differs
        }
        Err(_) => Status::Memory,
    }
}
