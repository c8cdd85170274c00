// What an audit says.
ghost use Rattle.std.specs.Prelude.{◌≡◌, ◌++◌, ◌∷◌, [], ◌↔◌, IsTrue, List};
ghost use Rattle.audit.specs.Checks.{Check, Statement, Holds, IsVerdict};
ghost use Rattle.audit.specs.declared.verdict.Verdict.TheVariants.{Yes};

use desk_io::Table;
use row_reader::Column;

/// What an audit says.
#[derive(Clone, Copy, Debug, PartialEq, Eq)]
pub enum Verdict {
    /// No check fails.
    Yes,
    /// The first check that fails is of this place. The line is the number of the record, where
    /// the header is 1.
    No {
        table: Table,
        line: u64,
        column: Column,
    },
}

impl Verdict {
    // The verdict of one check, that of a column in a line.
    pub(crate) fn of(holds: bool, table: Table, line: u64, column: Column) -> Self
        ensures { (s : Statement) → IsTrue holds ↔ Holds s
            → IsVerdict (record { statement = s; table = table; line = line; column = column } ∷ [])
            result }
    {
        if holds {
            Verdict::Yes
        } else {
            Verdict::No {
                table,
                line,
                column,
            }
        }
    }

    // The verdict of these checks and of later ones, whose verdict is given.
    pub(crate) fn then(self, later: Verdict) -> Verdict
        ensures verdict { (xs ys : List Check) → IsVerdict xs self → IsVerdict ys later
            → IsVerdict (xs ++ ys) result }
        ensures both { result ≡ Yes → self ≡ Yes }
    {
        match self {
            Verdict::Yes => later,
            Verdict::No { .. } => self,
        }
    }
}
