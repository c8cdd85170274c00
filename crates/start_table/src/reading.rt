// Start tables.
ghost use Rattle.std.specs.Prelude.{◌≡◌, Err, IfOk, None, Ok, map};
ghost use Rattle.net_core.specs.Ids.{place_of};
ghost use Rattle.row_reader.specs.FirstFault.{Tells};
ghost use Rattle.row_reader.specs.Records.{records};
ghost use Rattle.row_reader.specs.declared.accepted.RowRefusal.TheVariants as refusal;
ghost use Rattle.row_reader.specs.declared.faults.Complaint.{Complaint};
ghost use Rattle.start_table.specs.StartTable.{ids_in as ids_of, pieces_of};
ghost use Rattle.start_table.specs.StartTable.{identifiers_of, ids_told, start_row_of};
ghost use Rattle.start_table.specs.StartTable.{start_verdict};
ghost use Rattle.start_table.specs.StartTable.{is_beyond as is_beyond_of, value_in as value_in_of};
ghost use Rattle.start_table.specs.StartTable.{is_formless as is_formless_of};
ghost use Rattle.start_table.specs.Starts.{AreStartRows, agents_of};
ghost use Rattle.start_table.specs.declared.rows.TheConstants.{MOST_START_ROWS};

use crate::rows::{Ids, MOST_START_ROWS, StartRow, StartRows};
use desk_io::Table;
use fixed_units::{NumberFault, whole};
use net_core::Memory;
use row_reader::{
    Accepted, Code, Column, Fields, RowRefusal, TableRefusal, not_a_number, read_rows, unless,
};
use std::alloc::{AllocError, Global};

// The pieces of a text between semicolons.
fn pieces(alloc: Global, text: &[u8]) -> Result<Vec<&[u8]>, Memory>
    ensures { IfOk result (λ pieces. map (λ p. p.now) pieces.items ≡ pieces_of text.now) }
{
    text.split(|byte| *byte == b';').collect(alloc)
}

// Whether what was read isn't of the form of a number.
fn is_formless(read: &Result<u64, NumberFault>) -> bool
    ensures { result ≡ is_formless_of read.now }
{
    matches!(read, Err(NumberFault::NotNumber))
}

// Whether what was read is a number out of range.
fn is_beyond(read: &Result<u64, NumberFault>) -> bool
    ensures { result ≡ is_beyond_of read.now }
{
    matches!(read, Err(NumberFault::OutOfRange))
}

// A number that was read, or 0 where there is none.
fn value_in(read: &Result<u64, NumberFault>) -> u64
    ensures { result ≡ value_in_of read.now }
{
    match read {
        Ok(number) => *number,
        Err(_) => 0,
    }
}

// The identifiers that pieces of a column's field write, or the complaint.
fn identifiers(alloc: Global, column: Column, pieces: &[&[u8]]) -> Result<Ids, RowRefusal>
    ensures ids { IfOk result (λ ids.
        ids_told column (identifiers_of (map (λ p. p.now) pieces.now)) ≡ Ok ids) }
    ensures complaint { (c : Complaint) → result ≡ Err (refusal.Complaint c)
        → ids_told column (identifiers_of (map (λ p. p.now) pieces.now)) ≡ Err c }
{
    let mut ids = Vec::with_capacity(alloc, pieces.len())?;
    let mut beyond = false;
    for piece in pieces {
        let read = whole(*piece);
        if is_formless(&read) {
            return Err(RowRefusal::Complaint(not_a_number(column, NumberFault::NotNumber)));
        }
        beyond |= is_beyond(&read);
        ids.push(value_in(&read))?;
    }
    if beyond {
        return Err(RowRefusal::Complaint(not_a_number(column, NumberFault::OutOfRange)));
    }
    Ok(Ids::of(ids))
}

/// The identifiers in a field of a column, joined by semicolons; an empty field has none. It is E4
/// where some piece isn't of the form of an identifier, and E5 where all are and some is out of
/// range; else the refusal is want of memory.
#[tactic(auto, unfolding(crate::specs::StartTable::ids_in))]
pub fn ids_in(alloc: Global, column: Column, text: &[u8]) -> Result<Ids, RowRefusal>
    ensures ids { IfOk result (λ ids. ids_of column text.now ≡ Ok ids) }
    ensures complaint { (c : Complaint) → result ≡ Err (refusal.Complaint c)
        → ids_of column text.now ≡ Err c }
{
    if text.is_empty() {
        return Ok(Ids::of(Vec::new(alloc)));
    }
    let pieces = pieces(alloc, text)?;
    identifiers(alloc, column, &pieces)
}

// A start table that is being read.
#[derive(Drop)]
struct StartTable {
    alloc: Global,
    rows: StartRows,
}

impl Accepted for StartTable {
    type Item = StartRow;

    ghost limit = { MOST_START_ROWS };

    ghost rows = { λ t. t.rows };

    ghost checks = { λ _. start_row_of };

    ghost fits = { λ t start. place_of (agents_of t.rows) start.agent ≡ None };

    fn most(&self) -> usize {
        MOST_START_ROWS
    }

    #[tactic(auto, unfolding(crate::specs::StartTable::start_row_of))]
    fn row(&self, fields: &Fields<'_>) -> Result<StartRow, RowRefusal> {
        let agent = fields.identifier(Column::AgentId)?;
        unless(self.rows.contains(agent), Code::E6, Column::AgentId)?;
        let origin = fields.identifier(Column::OZoneId)?;
        let destination = fields.identifier(Column::DZoneId)?;
        let links = ids_in(self.alloc, Column::LinkIds, fields.text(Column::LinkIds))?;
        Ok(StartRow {
            agent,
            origin,
            destination,
            links,
        })
    }

    fn push(&mut self, start: StartRow) -> Result<(), AllocError> {
        self.rows.push(start)
    }
}

/// Reads a start table: the columns `agent_id`, `o_zone_id` and `d_zone_id`, identifiers, and
/// `link_ids`, which is empty or has identifiers joined by semicolons. They are columns of Agent.
/// An agent has one row. The refusal is the table's first fault, or want of memory.
pub fn read_start(alloc: Global, text: &[u8]) -> Result<StartRows, TableRefusal>
    ensures rows { Tells (start_verdict (records text.now)) result }
    ensures sound { IfOk result AreStartRows }
{
    let table = StartTable {
        alloc,
        rows: StartRows::new(alloc),
    };
    let required = [
        Column::AgentId,
        Column::OZoneId,
        Column::DZoneId,
        Column::LinkIds,
    ];
    let table = read_rows(alloc, Table::Start, &required, text, table)?;
    // What holds of all accepted rows is known where they are seen.
    let _seen = table.rows.as_slice();
    Ok(table.rows)
}
