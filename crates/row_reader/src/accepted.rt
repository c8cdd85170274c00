// The rows of a table, up to its first fault.
ghost use Rattle.std.specs.Prelude.{◌≡◌, ◌∷◌, ◌++◌, ◌+◌, [], List, ℕ, length, ◌<◌, Ok, Err};
ghost use Rattle.std.specs.Prelude.{IfOk, IfErr, OnOk, None};
ghost use Rattle.row_reader.specs.Records.{records};
ghost use Rattle.row_reader.specs.FirstFault.{judged, rows_from, rows_in, verdict, Checks};
ghost use Rattle.row_reader.specs.FirstFault.{Tells, TellsRow};
ghost use Rattle.row_reader.specs.declared.accepted.RowRefusal.TheVariants as refusal;
ghost use Rattle.row_reader.specs.declared.faults.Complaint.{Complaint};

use crate::faults::{Code, Column, Complaint, TableRefusal, refusal_at};
use crate::fields::{Fields, complain};
use crate::opening::{header_refusal, open_table};
use crate::rows::{RowFault, Rows};
use desk_io::Table;
use std::alloc::{AllocError, AllocFailed, Global};

/// Why a record gives no row.
#[derive(Clone, Copy, Debug, PartialEq, Eq)]
pub enum RowRefusal {
    /// A check fails.
    Complaint(Complaint),
    /// Memory is wanting.
    Memory,
}

impl From<Complaint> for RowRefusal {
    ghost from_gives = { λ complaint e. e ≡ refusal.Complaint complaint };

    fn from(complaint: Complaint) -> Self {
        RowRefusal::Complaint(complaint)
    }
}

impl From<AllocError> for RowRefusal {
    ghost from_gives = { λ _ e. e ≡ refusal.Memory };

    fn from(_: AllocError) -> Self {
        RowRefusal::Memory
    }
}

impl<T: Drop> From<AllocFailed<T>> for RowRefusal {
    ghost from_gives = { λ _ e. e ≡ refusal.Memory };

    fn from(_: AllocFailed<T>) -> Self {
        RowRefusal::Memory
    }
}

/// The rows of a table that were accepted so far, and the table's checks of a line.
pub trait Accepted {
    type Item;

    /// The most rows that the table may have.
    ghost limit: { ℕ };

    /// The rows so far, in the table's order.
    ghost rows: { Self → List Self.Item };

    /// What a record gives after some rows: its row, or the first check that fails.
    ghost checks: { Self → Checks Self.Item };

    /// What holds of a row that may come next.
    ghost fits: { Self → Self.Item → Type 0 } = { λ _ _. Unit {0} };

    /// The most rows that the table may have.
    fn most(&self) -> usize
        ensures { result ≡ limit };

    /// The row of a record, or a complaint of the record. The header and the rows so far have the
    /// lines above.
    fn row(&self, fields: &Fields<'_>) -> Result<Self::Item, RowRefusal>
        requires { fields.now.line ≡ length (rows self.now) + 2 }
        ensures row { TellsRow (checks self.now (rows self.now) fields.now) result }
        ensures fits { IfOk result (fits self.now) };

    /// Adds a row as the last one.
    fn push(&mut self, row: Self::Item) -> Result<(), AllocError>
        requires room { length (rows self.old) < limit }
        requires fits { fits self.old row }
        ensures pushed { OnOk result (rows self.new ≡ rows self.old ++ row ∷ []) }
        ensures checks { checks self.new ≡ checks self.old };
}

/// Reads a table into rows of which there are none yet. The refusal is the table's first fault, or
/// want of memory. The first required column that the header lacks is E1. A header that isn't text
/// is E2, as is a record that isn't good, and the first record past the most rows is E12, all
/// without a column.
pub fn read_rows<A: Accepted + Drop>(
    alloc: Global,
    table: Table,
    required: &[Column],
    text: &[u8],
    mut accepted: A,
) -> Result<A, TableRefusal>
    requires empty { A.rows accepted ≡ [] }
    ensures { Tells (verdict table A.limit required.now (A.checks accepted) (records text.now))
        (rows_in A.rows result) }
{
    let mut rows = open_table(alloc, table, text)?;
    match rows.header().has(required) {
        Ok(()) => {}
        Err(complaint) => return Err(header_refusal(table, complaint)),
    }
    accept_all(table, &mut rows, &mut accepted)?;
    Ok(accepted)
}

// Accepts the records that are left, one after another, up to the first fault. What `accepted`
// holds after a refusal is left open.
fn accept_all<A: Accepted>(
    table: Table,
    rows: &mut Rows<'_>,
    accepted: &mut A,
) -> Result<(), TableRefusal>
    requires running { rows.old.fault ≡ None }
    requires line { rows.old.line ≡ length (A.rows accepted.old) + 1 }
    ensures ok { let judge = judged rows.old.header A.limit (A.checks accepted.old) in
        OnOk result
        (rows_from table judge (A.rows accepted.old) rows.old.rest ≡ Ok (A.rows accepted.new)) }
    ensures refused { let judge = judged rows.old.header A.limit (A.checks accepted.old) in
        IfErr result
        (λ e. Tells (rows_from table judge (A.rows accepted.old) rows.old.rest) (Err e)) }
{
    'each: loop {
        match rows.next() {
            Ok(None) => return Ok(()),
            Ok(Some(row)) => {
                let line = row.line();
                if line - 2 >= accepted.most() as u64 {
                    return Err(refusal_at(table, line, complain(Code::E12, Column::NoColumn)));
                }
                match accept(accepted, &Fields::of(rows.header(), &row)) {
                    Ok(()) => {}
                    Err(RowRefusal::Complaint(c)) => return Err(refusal_at(table, line, c)),
                    Err(RowRefusal::Memory) => return Err(TableRefusal::Memory),
                }
            }
            Err(RowFault::BadRecord { line }) => {
                return Err(refusal_at(table, line, complain(Code::E2, Column::NoColumn)));
            }
            Err(RowFault::Memory) => return Err(TableRefusal::Memory),
        }
    }
}

// Adds the row of a record, or complains of the record.
fn accept<A: Accepted>(accepted: &mut A, fields: &Fields<'_>) -> Result<(), RowRefusal>
    requires room { length (A.rows accepted.old) < A.limit }
    requires line { fields.now.line ≡ length (A.rows accepted.old) + 2 }
    ensures accepted { OnOk result ((x : A.Item)
        × (A.checks accepted.old (A.rows accepted.old) fields.now ≡ Ok x)
        × (A.rows accepted.new ≡ A.rows accepted.old ++ x ∷ [])) }
    ensures complaint { (c : Complaint) → result ≡ Err (refusal.Complaint c)
        → A.checks accepted.old (A.rows accepted.old) fields.now ≡ Err c }
    ensures checks { A.checks accepted.new ≡ A.checks accepted.old }
{
    let row = accepted.row(fields)?;
    accepted.push(row)?;
    Ok(())
}
