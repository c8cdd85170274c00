// The header of a table.
ghost use Rattle.std.specs.Prelude.{◌≡◌, IfOk, IfErr, None};
ghost use Rattle.row_reader.specs.Faults.{fault_of};
ghost use Rattle.row_reader.specs.FirstFault.{TellsHeader};
ghost use Rattle.row_reader.specs.Records.{records};
ghost use Rattle.row_reader.specs.Rows.{OpensAs};
ghost use Rattle.row_reader.specs.declared.faults.TableRefusal.TheVariants as refusal;

use crate::faults::{Code, Column, Complaint, TableRefusal, refusal_at};
use crate::fields::complain;
use crate::rows::{RowFault, Rows};
use desk_io::Table;
use std::alloc::Global;

// Reads the header of a table. A header that isn't UTF-8 is E2 at line 1, without a column.
pub(crate) fn open_table<'a>(
    alloc: Global,
    table: Table,
    text: &'a [u8],
) -> Result<Rows<'a>, TableRefusal>
    ensures opens { IfOk result (OpensAs (records text.now)) }
    ensures first { IfOk result (λ rows. (rows.fault ≡ None) × (rows.line ≡ 1)) }
    ensures refused { IfErr result (TellsHeader table (records text.now)) }
{
    match Rows::new(alloc, text) {
        Ok(rows) => Ok(rows),
        Err(RowFault::BadRecord { .. }) => {
            Err(header_refusal(table, complain(Code::E2, Column::NoColumn)))
        }
        Err(RowFault::Memory) => Err(TableRefusal::Memory),
    }
}

// What a complaint about the header refuses: it stands at line 1.
pub(crate) fn header_refusal(table: Table, complaint: Complaint) -> TableRefusal
    ensures { result ≡ refusal.Fault (fault_of table 1 complaint) }
{
    refusal_at(table, 1, complaint)
}
