// The job of a run: what its settings and its tables come to.
ghost use Rattle.std.specs.Prelude.{◌≡◌, IfOk};
ghost use Rattle.dta_words.specs.Ranges.{AreSettings};
ghost use Rattle.jobs.specs.Calls.{OnlyReads};
ghost use Rattle.jobs.specs.Inputs.{FreeFlow, kind_of};
ghost use Rattle.jobs.specs.Jobs.{IsJob, IsJobOf};
ghost use Rattle.jobs.specs.Reading.{Reading};
ghost use Rattle.jobs.specs.Stops.{Stops};
ghost use Rattle.jobs.specs.Kinds.{IsFor, rows_in_job};

use crate::assign_job::{AssignJob, accept_grid, accept_tables};
use crate::audit_job::{AuditJob, accept_audit};
use crate::skim_job::{SkimJob, accept_skim};
use crate::stop::Stop;
use crate::sweep_job::{SweepJob, accept_sweep};
use crate::tables::accept_roads;
use desk_io::Desk;
use dta_words::{Command, Settings};
use gmns_tables::join_net;
use net_core::Net;
use std::alloc::Global;

/// What a command takes: its network, and what its other tables come to.
#[derive(Drop)]
pub enum Job {
    /// The job of `freeflow`.
    Freeflow(Net),
    /// The job of `assign`, `demo` and `counts`.
    Assign(AssignJob),
    /// The job of `skim`.
    Skim(SkimJob),
    /// The job of `sweep`.
    Sweep(SweepJob),
    /// The job of `audit`.
    Audit(AuditJob),
}

// Reads and checks the tables of `freeflow`, and makes its job.
fn accept_free<D: Desk>(alloc: Global, desk: &mut D, settings: &Settings) -> Result<Job, Stop>
    requires settings { AreSettings settings.now }
    requires kind { kind_of settings.now.command ≡ FreeFlow }
    ensures reads { OnlyReads (λ job. IsJobOf settings.now (rows_in_job job))
        (Stops settings.now) (D.state desk.old) (D.state desk.new) result }
    ensures sound { IfOk result (λ job. IsJob settings.now (rows_in_job job)) }
    ensures own { IfOk result (IsFor settings.now.command) }
{
    let roads = accept_roads(alloc, desk, settings)?;
    let net = join_net(alloc, roads.nodes, roads.links, None)?;
    Ok(Job::Freeflow(net))
}

/// Reads and checks the tables of a command, one after the other, and makes their job. The first
/// cause in this order stops the run: a table that can't be read, is too long or has a fault,
/// before the next is read; the links times the steps; the number of vehicles, for a sweep of each
/// scenario in turn, or of a skim's entries.
pub fn accept<D: Desk>(alloc: Global, desk: &mut D, settings: &Settings) -> Result<Job, Stop>
    requires settings { AreSettings settings.now }
    ensures reads { let reading = Reading settings.now.command in
        OnlyReads (λ job. reading (IsJobOf settings.now (rows_in_job job)))
        (λ stop. reading (Stops settings.now stop)) (D.state desk.old) (D.state desk.new) result }
    ensures sound { IfOk result (λ job. IsJob settings.now (rows_in_job job)) }
    ensures own { IfOk result (IsFor settings.now.command) }
{
    match settings.command {
        Command::Freeflow => accept_free(alloc, desk, settings),
        Command::Skim => accept_skim(alloc, desk, settings),
        Command::Assign | Command::Counts => accept_tables(alloc, desk, settings),
        Command::Sweep => accept_sweep(alloc, desk, settings),
        Command::Audit => accept_audit(alloc, desk, settings),
        Command::Demo(n) => accept_grid(alloc, settings, n),
    }
}
