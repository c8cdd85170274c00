// The statuses with which a run ends.
ghost use Rattle.std.specs.Prelude.{◌≡◌};
ghost use Rattle.commands.specs.Status.{number_of};

/// How a run ended. Report's line is whole unless puts fail.
#[derive(Clone, Copy, Debug, PartialEq, Eq)]
pub enum Status {
    /// The work is done and every output was put whole.
    Done,
    /// The words aren't in the grammar.
    Usage,
    /// A table has a fault. Report names the first one.
    Table,
    /// A table couldn't be read. Report names it.
    ReadFault,
    /// An output couldn't be put.
    WriteFault,
    /// Memory was wanting.
    Memory,
    /// A table is too long, or the work is too large. Report has the limit.
    Size,
    /// The tables of an audit differ from what was computed. Report names the first place.
    Differs,
}

impl Status {
    /// The number with which the program ends.
    pub fn number(self) -> u8
        ensures { result ≡ number_of self }
    {
        match self {
            Status::Done => 0,
            Status::Usage => 2,
            Status::Table => 3,
            Status::ReadFault => 4,
            Status::WriteFault => 5,
            Status::Memory => 6,
            Status::Size => 7,
            Status::Differs => 8,
        }
    }
}
