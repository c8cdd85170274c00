// The units of a loading, by their numbers.
ghost use Rattle.claim_core.specs.Kinds.{half_by, kind_by};
ghost use Rattle.claim_core.specs.Phases.{IsPhase, phase_of};
ghost use Rattle.dta_model.specs.Lent.{plan_of};
ghost use Rattle.dta_model.specs.Units.{phase_start as start_of, step_of as step_at};
ghost use Rattle.dta_model.specs.Units.{step_units, task_of};
ghost use Rattle.dta_model.specs.declared.loading.TheConstants.{MOST_HORIZON};
ghost use Rattle.std.specs.Prelude.{◌≡◌, ◌≤◌, ◌<◌, ◌*◌, ◌^◌, length};

use crate::phase::{Phase, PhaseKind};
use dta_model::Loading;
use net_core::NodeNo;
use node_transfer::{Half, HalfStep};

/// What a unit does.
#[derive(Clone, Copy, Debug, PartialEq, Eq, Drop)]
pub enum UnitKind {
    /// The transfer of a node.
    Transfer(NodeNo),
    /// The gather of a node.
    Gather(NodeNo),
    /// The posting of the state.
    Posting,
}

/// The units of a loading with so many nodes and so many steps.
#[derive(Clone, Copy, Debug, PartialEq, Eq, Drop)]
pub struct Units {
    pub nodes: u32,
    pub horizon: u32,
}

impl Units {
    /// Those of a loading.
    pub fn of(loading: &Loading) -> Self
        ensures nodes { result.nodes ≡ length (plan_of loading.now).net.nodes }
        ensures horizon { result.horizon ≡ (plan_of loading.now).horizon }
    {
        Units {
            nodes: loading.net.node_count(),
            horizon: loading.horizon,
        }
    }

    // How many a step has.
    fn in_step(self) -> u64
        ensures { result ≡ step_units self.nodes }
    {
        self.nodes as u64 + self.nodes as u64 + 1
    }

    /// How many there are.
    pub fn count(self) -> u64
        requires { self.horizon ≤ MOST_HORIZON }
        ensures value { result ≡ self.horizon * step_units self.nodes }
        ensures small { result < 2 ^ 50 }
    {
        self.horizon as u64 * self.in_step()
    }

    /// The step of a unit.
    pub fn step_of(self, number: u64) -> u32
        requires { number < self.horizon * step_units self.nodes }
        ensures { result ≡ step_at self.nodes number }
    {
        (number / self.in_step()) as u32
    }

    /// What a unit does.
    pub fn kind_of(self, number: u64) -> UnitKind
        ensures { result ≡ kind_by (task_of self.nodes number) }
    {
        let place = number % self.in_step();
        let nodes = self.nodes as u64;
        if place < nodes {
            UnitKind::Transfer(NodeNo(place as u32))
        } else if place < nodes + nodes {
            UnitKind::Gather(NodeNo((place - nodes) as u32))
        } else {
            UnitKind::Posting
        }
    }

    /// The first unit of the phase of a unit.
    pub fn phase_start(self, number: u64) -> u64
        ensures { result ≡ start_of self.nodes number }
    {
        let place = number % self.in_step();
        let step_start = number - place;
        let nodes = self.nodes as u64;
        if place < nodes {
            step_start
        } else if place < nodes + nodes {
            step_start + nodes
        } else {
            step_start + nodes + nodes
        }
    }

    /// The phase of a unit.
    pub fn phase_of(self, number: u64) -> Phase
        requires small { self.horizon ≤ MOST_HORIZON }
        requires number { number < self.horizon * step_units self.nodes }
        ensures { result ≡ phase_of self.nodes number }
    {
        let first = self.phase_start(number);
        let step = self.step_of(number);
        let nodes = self.nodes as u64;
        match self.kind_of(number) {
            UnitKind::Transfer(_) => Phase {
                first,
                end: first + nodes,
                step,
                kind: PhaseKind::Transfers,
            },
            UnitKind::Gather(_) => Phase {
                first,
                end: first + nodes,
                step,
                kind: PhaseKind::Gathers,
            },
            UnitKind::Posting => Phase {
                first,
                end: first + 1,
                step,
                kind: PhaseKind::Posting,
            },
        }
    }

    /// The phase of a unit, which is the known one where that has the unit. So no division is
    /// needed for a unit that comes after another one of its phase.
    pub fn phase_from(self, known: Phase, number: u64) -> Phase
        requires known { IsPhase self.nodes known }
        requires small { self.horizon ≤ MOST_HORIZON }
        requires number { number < self.horizon * step_units self.nodes }
        ensures { result ≡ phase_of self.nodes number }
    {
        if known.first <= number && number < known.end {
            known
        } else {
            self.phase_of(number)
        }
    }

    /// What a unit of a phase does.
    pub fn kind_in(self, phase: Phase, number: u64) -> UnitKind
        requires { phase ≡ phase_of self.nodes number }
        ensures { result ≡ kind_by (task_of self.nodes number) }
    {
        let node = NodeNo((number - phase.first) as u32);
        match phase.kind {
            PhaseKind::Transfers => UnitKind::Transfer(node),
            PhaseKind::Gathers => UnitKind::Gather(node),
            PhaseKind::Posting => UnitKind::Posting,
        }
    }

    /// The half of a node's step that a unit of a phase is. A posting is none.
    pub fn half_in(self, phase: Phase, number: u64) -> Option<HalfStep>
        requires { phase ≡ phase_of self.nodes number }
        ensures { result ≡ half_by (step_at self.nodes number) (task_of self.nodes number) }
    {
        let (half, node) = match self.kind_in(phase, number) {
            UnitKind::Transfer(node) => (Half::Transfer, node),
            UnitKind::Gather(node) => (Half::Gather, node),
            UnitKind::Posting => return None,
        };
        let step = phase.step;
        Some(HalfStep { half, node, step })
    }
}
