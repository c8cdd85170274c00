// A unit, the numbers that a claim draws, and the answer of an open.
use claim_core::UnitKind;

/// A unit of a loading: its number, the step that it belongs to, and what it does.
#[derive(Clone, Copy, Debug, PartialEq, Eq, Drop)]
pub struct Unit {
    pub number: u64,
    pub step: u32,
    pub kind: UnitKind,
}

/// The numbers of units in a row: from the first to below the end.
#[derive(Clone, Copy, Debug, PartialEq, Eq, Drop)]
pub struct Chunk {
    pub first: u64,
    pub end: u64,
}

/// What an open is answered.
#[derive(Clone, Copy, Debug, PartialEq, Eq, Drop)]
pub enum Open {
    /// The units of the first one's phase are open.
    Yes,
    /// They may not be opened yet: so many units are finished, fewer than come before that phase.
    NotYet { finished: u64 },
}
