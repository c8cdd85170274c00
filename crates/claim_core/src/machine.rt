// The machine: the claims of a loading's units, with its cells and its mail.
ghost use Rattle.claim_core.specs.Machine.{AreReached, HasParts, worker_of};
ghost use Rattle.dta_model.specs.Lent.{plan_of};
ghost use Rattle.dta_model.specs.Machine.{all_idle, outcome, step_machine};
ghost use Rattle.dta_model.specs.Sound.{IsSound};
ghost use Rattle.std.specs.Prelude.{◌≡◌, ◌<◌, ◌≤◌, length, IfOk};

use crate::claims::Workers;
use dta_model::{Event, Loading, Outcome};
use net_core::Memory;
use node_transfer::{Mail, NodeCell, opening};
use std::alloc::Global;
use std::marker::Model;

/// A loading whose units are claimed by workers, one or several at a time, as a machine of events.
#[derive(Drop)]
pub struct Machine<'a> {
    loading: Loading<'a>,
    workers: Workers,
    finished: u64,
    cells: Vec<NodeCell>,
    mail: Vec<Mail>,
}

impl<'a> Model for Machine<'a> {
    ghost use Rattle.claim_core.specs.Machine.{IsMachine, MachineState};
    ghost use Rattle.dta_model.specs.Lent.{plan_of};

    ghost Value = { MachineState };

    ghost view = { λ m. record {
      plan = plan_of m.loading;
      claims = m.workers;
      parts = record { cells = m.cells.items; mail = m.mail.items };
    } };

    ghost invariant = { λ m. IsMachine (record {
      plan = plan_of m.loading;
      claims = m.workers;
      parts = record { cells = m.cells.items; mail = m.mail.items };
    }) m.finished };
}

impl<'a> Machine<'a> {
    /// The machine of a loading at the start, with so many workers, all idle.
    pub fn new(alloc: Global, loading: &Loading<'a>, workers: u32) -> Result<Self, Memory>
        requires sound { IsSound (plan_of loading.now) }
        requires workers { 1 ≤ workers }
        ensures plan { IfOk result (λ m. m.plan ≡ plan_of loading.now) }
        ensures claims { IfOk result (λ m. m.claims ≡ all_idle workers) }
        ensures parts { IfOk result HasParts }
    {
        let start = opening(alloc, loading)?;
        let workers = Workers::idle(alloc, workers)?;
        Ok(Machine {
            loading: *loading,
            workers,
            finished: 0,
            cells: start.cells.into_vec(),
            mail: start.mail.into_vec(),
        })
    }

    /// What a worker is answered to an event. One that doesn't fit what the worker has changes
    /// nothing.
    pub fn apply(&mut self, event: Event) -> Outcome
        requires { worker_of event < length self.old.claims.stages }
        ensures plan { self.new.plan ≡ self.old.plan }
        ensures workers { length self.new.claims.stages ≡ length self.old.claims.stages }
        ensures claims { self.new.claims ≡ step_machine self.old.plan self.old.claims event }
        ensures outcome { result ≡ outcome self.old.plan self.old.claims event }
        ensures reached { AreReached self.new.plan self.new.claims }
        ensures parts { HasParts self.new }
    {
        match event {
            Event::Claim(worker) => self.workers.claim(&self.loading, worker),
            Event::ClaimChunk { worker, many } => {
                self.workers.claim_chunk(&self.loading, worker, many)
            }
            Event::Open(worker) => self.workers.open(&self.loading, self.finished, worker),
            Event::Finish(worker) => self.workers.finish(
                &self.loading,
                &mut self.finished,
                &mut self.cells,
                &mut self.mail,
                worker,
            ),
        }
    }
}
