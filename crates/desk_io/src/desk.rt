ghost use Rattle.std.specs.Prelude.{◌≡◌, ◌<◌};
ghost use Rattle.desk_io.specs.Desk.{output_number, table_number};
ghost use Rattle.desk_io.specs.State.{DeskState, PutsSome, ReadsSome};

/// How many tables there are.
pub(crate) const TABLES: usize = 6;

/// How many outputs there are.
pub(crate) const OUTPUTS: usize = 9;

/// A table that a desk hands out. The first three have the column names of GMNS. A start is a
/// table of agents, and the last one a table of link times, both as an assignment puts them.
#[derive(Clone, Copy, Debug, PartialEq, Eq)]
pub enum Table {
    Node,
    Link,
    Movement,
    Demand,
    Start,
    Times,
}

impl Table {
    /// The number of the table: its place in a desk's lists.
    pub(crate) fn number(self) -> usize
        ensures is { result ≡ table_number self }
        ensures below { result < TABLES }
    {
        self as usize
    }
}

/// An output that a desk takes.
#[derive(Clone, Copy, Debug, PartialEq, Eq)]
pub enum Output {
    Agent,
    LinkTime,
    OriginWait,
    Gap,
    Report,
    Watch,
    Skim,
    Counts,
    Sweep,
}

impl Output {
    /// The number of the output: its place in a desk's lists.
    pub(crate) fn number(self) -> usize
        ensures is { result ≡ output_number self }
        ensures below { result < OUTPUTS }
    {
        self as usize
    }
}

/// A read or a put that failed. The desk's count of such failures rose in the call.
#[derive(Clone, Copy, Debug, PartialEq, Eq)]
pub struct Failed;

/// What the program reads from and puts to. Bytes are told or not told: a desk over files knows
/// nothing of its contents.
pub trait Desk {
    /// What is left of the tables, what the outputs have taken, and how many calls failed. A count
    /// of failed calls never falls, and stands still at the last value of a counter.
    ghost state: { Self → DeskState };

    /// Moves the first bytes that are left of a table into the buffer, and answers how many. For a
    /// buffer that isn't empty, 0 means the end of the table. On Failed nothing is moved.
    fn read(&mut self, table: Table, buf: &mut [u8]) -> Result<usize, Failed>
        ensures { ReadsSome table buf.new (state self.old) (state self.new) result };

    /// Takes a first part of the piece, and answers its length, at least 1 for a piece that isn't
    /// empty. On Failed nothing is taken.
    fn put(&mut self, output: Output, piece: &[u8]) -> Result<usize, Failed>
        ensures { PutsSome output piece.now (state self.old) (state self.new) result };
}
