// How the units of a loading are claimed by workers, as plain data. A step with n nodes has 2 n +
// 1 units: a transfer of each node, a gather of each node, and a posting of the state.

/// The most numbers that a claim can draw.
pub const MOST_CHUNK: u32 = 256;

/// What a worker has of the units. The numbers that one claim drew are a chunk: they stand in a
/// row.
#[derive(Clone, Copy, Debug, PartialEq, Eq, Drop)]
pub enum Stage {
    /// No unit.
    Idle,
    /// The units from the first number to below the second, none of them open.
    Held(u64, u64),
    /// Open ones, from the first number to below the second, and others up to below the third.
    Open(u64, u64, u64),
    /// No unit, and none will come: all were drawn.
    Ended,
}

/// What a worker, by its number, asks for.
#[derive(Clone, Copy, Debug, PartialEq, Eq, Drop)]
pub enum Event {
    /// The next unit.
    Claim(u32),
    /// The next units, as many as this, of which there is at least one and no more than
    /// [`MOST_CHUNK`].
    ClaimChunk { worker: u32, many: u32 },
    /// To begin the units that it holds, up to the end of the first one's phase.
    Open(u32),
    /// To end the units that it has open.
    Finish(u32),
}

/// What it is answered.
#[derive(Clone, Copy, Debug, PartialEq, Eq, Drop)]
pub enum Outcome {
    /// It holds the unit of this number.
    Given { number: u64 },
    /// It holds the units from the first number to below the end.
    GivenChunk { first: u64, end: u64 },
    /// Its units are open, or finished.
    Done,
    /// Its units may not be opened yet: so many units are finished.
    NotYet { finished: u64 },
    /// The number that it drew is that of no unit. It has ended.
    Over { number: u64 },
    /// The event doesn't fit what the worker has. Nothing changes.
    Misplaced,
}
