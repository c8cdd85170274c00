// Times tables.
ghost use Rattle.std.specs.Prelude.{◌≡◌, ◌≤◌, length, IfErr, IfOk, IfSome, IsTrue, Err, Ok};
ghost use Rattle.std.specs.Prelude.{if◌then◌else◌};
ghost use Rattle.row_reader.specs.Columns.{text};
ghost use Rattle.row_reader.specs.FirstFault.{Tells};
ghost use Rattle.row_reader.specs.Records.{records};
ghost use Rattle.row_reader.specs.declared.faults.Code.TheVariants.{E8, E13};
ghost use Rattle.row_reader.specs.declared.faults.Column.TheVariants as column;
ghost use Rattle.skims.specs.GivenTimes.{AreRowsOf};
ghost use Rattle.skims.specs.TimesTable.{has_link, link_of, none_missing, same_number};
ghost use Rattle.skims.specs.TimesTable.{row_count, time_row_of, times_verdict};
ghost use Rattle.skims.specs.TimesTable.{travel_of, wanted_after};
ghost use Rattle.skims.specs.declared.times_table.TheConstants.{MOST_TIME_ROWS, MOST_TRAVEL_STEPS};

use crate::time_rows::{TimeRow, TimeRows};
use crate::wanted::{Wanted, after_rows, rows_wanted};
use desk_io::Table;
use net_core::Net;
use row_reader::{
    Accepted, Code, Column, Complaint, Fields, RowRefusal, TableFault, TableRefusal, complain,
    read_rows, within,
};
use std::alloc::{AllocError, Global};

/// The most rows of a times table.
pub const MOST_TIME_ROWS: usize = 67_108_864;

/// The most steps that a row may say a link takes.
pub const MOST_TRAVEL_STEPS: u64 = 4_294_967_295;

// Whether some link has an identifier.
fn is_known(net: &Net, id: u64) -> bool
    ensures { result ≡ has_link net.now.links id }
{
    net.links().iter().any(|link| link.id == id)
}

// Why an identifier isn't that of a row's own link. The reading ends here, so one search over all
// links costs less than an index would.
fn not_its_link(net: &Net, id: u64) -> Complaint
    ensures { result ≡ record {
      code = if has_link net.now.links id then E13 else E8;
      column = column.LinkId;
    } }
{
    if is_known(net, id) {
        complain(Code::E13, Column::LinkId)
    } else {
        complain(Code::E8, Column::LinkId)
    }
}

// What a row has to tell, where its field names its own link.
#[tactic(auto, unfolding(crate::specs::TimesTable::link_of))]
fn own_link(net: &Net, wanted: Option<Wanted>, fields: &Fields<'_>) -> Result<Wanted, Complaint>
    requires { IfSome wanted (λ wanted. IsTrue (has_link net.now.links wanted.link)) }
    ensures { result ≡ link_of net.now.links wanted (text fields.now column.LinkId) }
{
    let id = fields.identifier(Column::LinkId)?;
    match wanted {
        Some(wanted) => {
            if id == wanted.link {
                Ok(wanted)
            } else {
                Err(not_its_link(net, id))
            }
        }
        None => Err(not_its_link(net, id)),
    }
}

// The identifier in a required field, where it is this one.
#[tactic(auto, unfolding(crate::specs::TimesTable::same_number))]
fn same(column: Column, wanted: u64, fields: &Fields<'_>) -> Result<u64, Complaint>
    ensures { result ≡ same_number column wanted (text fields.now column) }
{
    let number = fields.identifier(column)?;
    if number == wanted {
        Ok(number)
    } else {
        Err(complain(Code::E13, column))
    }
}

// The steps that a link takes.
#[tactic(auto, unfolding(crate::specs::TimesTable::travel_of))]
fn travel(fields: &Fields<'_>) -> Result<u64, Complaint>
    ensures steps { result ≡ travel_of (text fields.now column.TravelSteps) }
    ensures most { IfOk result (λ n. n ≤ MOST_TRAVEL_STEPS) }
{
    let steps = fields.identifier(Column::TravelSteps)?;
    within(Column::TravelSteps, 1, MOST_TRAVEL_STEPS, steps)
}

// A times table that is being read.
#[derive(Drop)]
struct TimesTable<'a> {
    net: &'a Net,
    bucket: u32,
    horizon: u32,
    rows: Vec<TimeRow>,
    ghost some_steps: { 1 ≤ bucket },
    ghost some_time: { 1 ≤ horizon },
}

impl Accepted for TimesTable<'_> {
    type Item = TimeRow;

    ghost limit = { MOST_TIME_ROWS };

    ghost rows = { λ t. t.rows.items };

    ghost checks = { λ t. time_row_of t.net.now t.bucket t.horizon };

    fn most(&self) -> usize {
        MOST_TIME_ROWS
    }

    #[tactic(auto, unfolding(crate::specs::TimesTable::time_row_of))]
    fn row(&self, fields: &Fields<'_>) -> Result<TimeRow, RowRefusal> {
        let wanted = after_rows(self.net, self.bucket, self.horizon, self.rows.len());
        let wanted = own_link(self.net, wanted, fields)?;
        same(Column::FromStep, wanted.from, fields)?;
        same(Column::ToStep, wanted.to, fields)?;
        let entered = fields.identifier(Column::Entered)?;
        let travel = travel(fields)?;
        same(Column::FreeSteps, wanted.free, fields)?;
        Ok(TimeRow {
            entered,
            travel: travel as u32,
        })
    }

    fn push(&mut self, times: TimeRow) -> Result<(), AllocError> {
        self.rows.push(times)?;
        Ok(())
    }
}

// Rows that were accepted, where none of so many is missing.
fn whole(rows: Vec<TimeRow>, count: u64) -> Result<TimeRows, TableRefusal>
    ensures whole { IfOk result (λ whole. none_missing count rows.items ≡ Ok whole) }
    ensures refused { IfErr result (λ refusal. Tells (none_missing count rows.items)
        (Err refusal)) }
{
    let there = rows.len() as u64;
    if there < count {
        return Err(TableRefusal::Fault(TableFault {
            table: Table::Times,
            line: there + 2,
            code: Code::E13,
            column: Column::NoColumn,
        }));
    }
    Ok(TimeRows::of(rows))
}

/// Reads a times table over a network, with buckets of so many steps up to a horizon: a row for
/// each bucket of each link, link by link. Its columns are `link_id`, `from_step`, `to_step` and
/// `free_steps`, which have to be those of the row's link and bucket, `entered`, the vehicles that
/// entered, and `travel_steps`, the steps that the link takes, one at least. They are the columns
/// of LinkTime. The refusal is the table's first fault, of which a missing row comes last, or want
/// of memory.
pub fn read_times(
    alloc: Global,
    net: &Net,
    text: &[u8],
    bucket: u32,
    horizon: u32,
) -> Result<TimeRows, TableRefusal>
    requires bucket { 1 ≤ bucket }
    requires horizon { 1 ≤ horizon }
    ensures rows { IfOk result (λ rows.
        times_verdict net.now bucket horizon (records text.now) ≡ Ok rows) }
    ensures refused { IfErr result (λ refusal.
        Tells (times_verdict net.now bucket horizon (records text.now)) (Err refusal)) }
    ensures sound { IfOk result (AreRowsOf net.now bucket horizon) }
{
    let table = TimesTable {
        net,
        bucket,
        horizon,
        rows: Vec::new(alloc),
    };
    let required = [
        Column::LinkId,
        Column::FromStep,
        Column::ToStep,
        Column::Entered,
        Column::TravelSteps,
        Column::FreeSteps,
    ];
    let table = read_rows(alloc, Table::Times, &required, text, table)?;
    whole(table.rows, rows_wanted(net, bucket, horizon))
}
