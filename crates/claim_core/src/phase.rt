// The phases of a loading.
ghost use Rattle.claim_core.specs.Phases.{IsPhase};
ghost use Rattle.std.specs.Prelude.{ℕ};

/// What the units of a phase do.
#[derive(Clone, Copy, Debug, PartialEq, Eq, Drop)]
pub enum PhaseKind {
    /// The transfers of all nodes.
    Transfers,
    /// The gathers of all nodes.
    Gathers,
    /// The posting of the state.
    Posting,
}

/// The units of a step that don't wait for one another: those from the first number on, up to
/// before the end.
#[derive(Clone, Copy, Debug, PartialEq, Eq, Drop)]
pub struct Phase {
    pub first: u64,
    pub end: u64,
    pub step: u32,
    pub kind: PhaseKind,
}

impl Phase {
    /// A phase without units, for who has seen none yet.
    pub fn empty() -> Self
        ensures { (nodes : ℕ) → IsPhase nodes result }
    {
        Phase {
            first: 0,
            end: 0,
            step: 0,
            kind: PhaseKind::Posting,
        }
    }
}
