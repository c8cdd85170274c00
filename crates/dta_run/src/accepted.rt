// Accepting the tables of a run, or refusing it.
ghost use Rattle.std.specs.Prelude.{◌≡◌, ◌≤◌, ℕ, List, Some};
ghost use Rattle.dta_words.specs.Ranges.{AreSettings};
ghost use Rattle.jobs.specs.Jobs.{IsJob};
ghost use Rattle.jobs.specs.Kinds.{IsFor, rows_in_job};
ghost use Rattle.dta_words.specs.Grammar.{settings_of};
ghost use Rattle.loader.specs.Gates.{gate_of};
ghost use Rattle.commands.specs.Status.{refusal_status as status_of_refusal};
ghost use Rattle.commands.specs.Calls.{DoesWork};
ghost use Rattle.dta_run.specs.Calls.{Refuses};
ghost use Rattle.dta_run.specs.Outcome.{Means};
ghost use Rattle.dta_run.specs.Receipts.{RunGives};
ghost use Rattle.assign_command.specs.Receipts.{WorkGives};

use commands::Status;
use desk_io::Desk;
use dta_words::Settings;
use jobs::{Job, Stop, accept};
use loader::Gate;
use reports::{Refusal, put_refusal};
use std::alloc::Global;

// The status of a run that is refused.
fn refusal_status(refusal: Refusal) -> Status
    ensures { result ≡ status_of_refusal refusal }
{
    match refusal {
        Refusal::Usage => Status::Usage,
        Refusal::Table(_) => Status::Table,
        Refusal::Read(_) => Status::ReadFault,
        Refusal::LongTable(_)
        | Refusal::Cells { .. }
        | Refusal::Vehicles { .. }
        | Refusal::SkimPairs { .. }
        | Refusal::SweepCells { .. } => Status::Size,
    }
}

/// Puts the line of a refusal to Report, and answers the refusal's status, also where the put
/// fails. It takes no memory.
pub(crate) fn refuse<D: Desk>(desk: &mut D, refusal: Refusal) -> Status
    ensures { Refuses refusal (D.state desk.old) (D.state desk.new) result }
{
    let _ = put_refusal(desk, &refusal);
    refusal_status(refusal)
}

/// Checks the tables, and does the given work over their job.
pub(crate) fn accept_and_work<D: Desk, G: Gate, F>(
    alloc: Global,
    settings: &Settings,
    gate: &mut G,
    desk: &mut D,
    work: F,
) -> Status
where
    F: FnOnce(&Job, &mut G, &mut D) -> Status,
    requires settings { AreSettings settings.now }
    requires may { (job : _) (g : _) (d : _) → IsJob settings.now (rows_in_job job.now)
        → IsFor settings.now.command job.now → F.pre work job g d }
    requires works { (job : _) (g : _) (d : _) (r : _) (g' : _) (d' : _)
        → IsJob settings.now (rows_in_job job.now) → IsFor settings.now.command job.now
        → F.post work job g d r g' d'
        → DoesWork settings.now (rows_in_job job.now) (D.state d.now) (D.state d'.now) r }
    requires receipts { let shown = gate_of G.closes G.last in
        (job : _) (g : _) (d : _) (r : _) (g' : _) (d' : _)
        → IsJob settings.now (rows_in_job job.now) → IsFor settings.now.command job.now
        → F.post work job g d r g' d'
        → WorkGives settings.now (rows_in_job job.now) r (shown g.now) (shown g'.now) }
    ensures means { (words : List (List ℕ)) → settings_of words ≡ Some settings.now
        → Means words result (D.state desk.old) (D.state desk.new) }
    ensures receipts { let shown = gate_of G.closes G.last in
        (words : List (List ℕ)) → settings_of words ≡ Some settings.now
        → RunGives words result (D.state desk.old) (D.state desk.new)
        (shown gate.old) (shown gate.new) }
    ensures reads { (D.state desk.old).read_faults ≤ (D.state desk.new).read_faults }
    ensures puts { (D.state desk.old).put_faults ≤ (D.state desk.new).put_faults }
{
    match accept(alloc, desk, settings) {
        Ok(job) => {
            let status = work(&job, gate, desk);
            drop(job);
            status
        }
        Err(Stop::Refused(refusal)) => refuse(desk, refusal),
        Err(Stop::Memory) => Status::Memory,
    }
}
