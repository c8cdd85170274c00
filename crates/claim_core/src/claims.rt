// What the workers of a machine have, and what the events do with it, and with the parts.
ghost use Rattle.claim_core.specs.Machine.{AreReached};
ghost use Rattle.claim_core.specs.Parts.{stage_in};
ghost use Rattle.claim_core.specs.Work.{AreAtStages};
ghost use Rattle.dta_model.specs.Lent.{plan_of};
ghost use Rattle.dta_model.specs.Machine.{all_idle, effect_of, finished as finished_in, left_of};
ghost use Rattle.dta_model.specs.Sound.{IsSound};
ghost use Rattle.dta_model.specs.Units.{unit_count};
ghost use Rattle.std.specs.Prelude.{◌≡◌, ℕ, ◌+◌, ◌<◌, ◌≤◌, ◌^◌, length, IfOk};

use crate::units::Units;
use crate::work::do_work;
use dta_model::{Event, Loading, MOST_CHUNK, Outcome, Stage};
use net_core::Memory;
use node_transfer::{Mail, NodeCell};
use std::alloc::Global;
use std::marker::Model;

/// How many numbers are drawn, and what each worker has of them.
#[derive(Drop)]
pub(crate) struct Workers {
    drawn: u64,
    stages: Vec<Stage>,
}

impl Model for Workers {
    ghost use Rattle.dta_model.specs.Machine.{Claims};
    ghost use Rattle.std.specs.Prelude.{◌<◌, ◌^◌};

    ghost Value = { Claims };

    ghost view = { λ w. record { drawn = w.drawn; stages = w.stages.items } };

    ghost invariant = { λ w. w.drawn < 2 ^ 64 };
}

impl Workers {
    /// So many workers without a unit, before the first draw.
    pub fn idle(alloc: Global, count: u32) -> Result<Self, Memory>
        ensures { IfOk result (λ workers. workers ≡ all_idle count) }
    {
        let mut stages = Vec::new(alloc);
        for _ in 0..count {
            stages.push(Stage::Idle)?;
        }
        Ok(Workers { drawn: 0, stages })
    }

    /// An idle worker draws the next number.
    pub fn claim(&mut self, loading: &Loading, worker: u32) -> Outcome
        requires sound { IsSound (plan_of loading.now) }
        requires worker { worker < length self.old.stages }
        requires room { self.old.drawn ≤ unit_count (plan_of loading.now) + 2 ^ 40 }
        ensures { record { claims = self.new; outcome = result }
            ≡ effect_of (plan_of loading.now) self.old (Event.Claim worker) }
    {
        match self.claim_chunk(loading, worker, 1) {
            Outcome::GivenChunk { first, end: _ } => Outcome::Given { number: first },
            other => other,
        }
    }

    /// An idle worker draws the next numbers, as many as may be asked for, and holds those of
    /// units.
    pub fn claim_chunk(&mut self, loading: &Loading, worker: u32, many: u32) -> Outcome
        requires sound { IsSound (plan_of loading.now) }
        requires worker { worker < length self.old.stages }
        requires room { self.old.drawn ≤ unit_count (plan_of loading.now) + 2 ^ 40 }
        ensures { record { claims = self.new; outcome = result }
            ≡ effect_of (plan_of loading.now) self.old (Event.ClaimChunk worker many) }
    {
        let at = worker as usize;
        let Stage::Idle = self.stages[at] else {
            return Outcome::Misplaced;
        };
        if many < 1 || MOST_CHUNK < many {
            return Outcome::Misplaced;
        }
        let count = Units::of(loading).count();
        let first = self.drawn;
        self.drawn = first + many as u64;
        if first < count {
            let end = self.drawn.min(count);
            self.stages[at] = Stage::Held(first, end);
            Outcome::GivenChunk { first, end }
        } else {
            self.stages[at] = Stage::Ended;
            Outcome::Over { number: first }
        }
    }

    /// A worker opens the units that it holds, up to the end of the first one's phase, where all
    /// earlier phases are finished.
    pub fn open(&mut self, loading: &Loading, finished: u64, worker: u32) -> Outcome
        requires sound { IsSound (plan_of loading.now) }
        requires worker { worker < length self.old.stages }
        requires reached { AreReached (plan_of loading.now) self.old }
        requires count { finished ≡ finished_in (plan_of loading.now) self.old }
        ensures { record { claims = self.new; outcome = result }
            ≡ effect_of (plan_of loading.now) self.old (Event.Open worker) }
    {
        let at = worker as usize;
        let Stage::Held(first, end) = self.stages[at] else {
            return Outcome::Misplaced;
        };
        let phase = Units::of(loading).phase_of(first);
        if phase.first <= finished {
            self.stages[at] = Stage::Open(first, end.min(phase.end), end);
            Outcome::Done
        } else {
            Outcome::NotYet { finished }
        }
    }

    /// A worker does the work of the units that it has open, and holds the others, or is idle
    /// again.
    pub fn finish(
        &mut self,
        loading: &Loading,
        finished: &mut u64,
        cells: &mut [NodeCell],
        mail: &mut [Mail],
        worker: u32,
    ) -> Outcome
        requires sound { IsSound (plan_of loading.now) }
        requires worker { worker < length self.old.stages }
        requires reached { AreReached (plan_of loading.now) self.old }
        requires count { finished.old ≡ finished_in (plan_of loading.now) self.old }
        requires parts { AreAtStages (plan_of loading.now)
            (stage_in (plan_of loading.now) self.old)
            (record { cells = cells.old; mail = mail.old }) }
        ensures effect { record { claims = self.new; outcome = result }
            ≡ effect_of (plan_of loading.now) self.old (Event.Finish worker) }
        ensures count { finished.new ≡ finished_in (plan_of loading.now) self.new }
        ensures parts { AreAtStages (plan_of loading.now)
            (stage_in (plan_of loading.now) self.new)
            (record { cells = cells.new; mail = mail.new }) }
    {
        let at = worker as usize;
        let Stage::Open(first, middle, end) = self.stages[at] else {
            return Outcome::Misplaced;
        };
        for number in first..middle {
            do_work(loading, number, cells, mail);
        }
        *finished += middle - first;
        self.stages[at] = left_after(middle, end);
        Outcome::Done
    }
}

// What a worker has once it has finished its open units: the others, if there are any.
fn left_after(middle: u64, end: u64) -> Stage
    ensures { (first : ℕ) → result ≡ left_of (Stage.Open first middle end) }
{
    if middle < end {
        Stage::Held(middle, end)
    } else {
        Stage::Idle
    }
}
