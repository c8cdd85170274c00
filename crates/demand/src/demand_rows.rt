// Demand tables.
ghost use Rattle.std.specs.Prelude.{◌≡◌, ◌≤◌, Ok, Err, IfOk, IfErr};
ghost use Rattle.row_reader.specs.Columns.{text};
ghost use Rattle.row_reader.specs.FirstFault.{Tells};
ghost use Rattle.row_reader.specs.Records.{records};
ghost use Rattle.demand.specs.DemandRows.{AreDemandCells, demand_cell_of, demand_verdict};
ghost use Rattle.demand.specs.DemandRows.{step_or as step_or_of};
ghost use Rattle.demand.specs.declared.demand_rows.TheConstants.{MOST_DEMAND_CELLS};

use desk_io::Table;
use dta_model::DemandCell;
use row_reader::{
    Accepted, Column, Complaint, Fields, RowRefusal, TableRefusal, read_rows, within,
};
use std::alloc::{AllocError, Global};

/// The most rows of a demand table.
pub const MOST_DEMAND_CELLS: usize = 4_000_000;

// The line of the first row: the header is line 1.
pub(crate) const FIRST_LINE: u64 = 2;

// The step in an optional field, from one to another, or a third one where the field is empty.
#[tactic(auto, unfolding(crate::specs::DemandRows::step_or))]
fn step_or(
    otherwise: u32,
    column: Column,
    low: u32,
    high: u32,
    fields: &Fields<'_>,
) -> Result<u32, Complaint>
    requires low { low ≤ otherwise }
    requires high { otherwise ≤ high }
    ensures step { result ≡ step_or_of otherwise column low high (text fields.now column) }
    ensures low { IfOk result (λ step. low ≤ step) }
    ensures high { IfOk result (λ step. step ≤ high) }
{
    if fields.text(column).is_empty() {
        return Ok(otherwise);
    }
    let step = fields.identifier(column)?;
    let step = within(column, u64::from(low), u64::from(high), step)?;
    Ok(step as u32)
}

// A demand table that is being read, for a period of so many steps.
#[derive(Drop)]
struct DemandTable {
    period: u32,
    cells: Vec<DemandCell>,
    ghost some_steps: { 1 ≤ period },
}

impl Accepted for DemandTable {
    type Item = DemandCell;

    ghost limit = { MOST_DEMAND_CELLS };

    ghost rows = { λ t. t.cells.items };

    ghost checks = { λ t. demand_cell_of t.period };

    fn most(&self) -> usize {
        MOST_DEMAND_CELLS
    }

    #[tactic(auto, unfolding(crate::specs::DemandRows::demand_cell_of))]
    fn row(&self, fields: &Fields<'_>) -> Result<DemandCell, RowRefusal> {
        let origin = fields.identifier(Column::OZoneId)?;
        let destination = fields.identifier(Column::DZoneId)?;
        let volume = fields.quantity(Column::Volume)?;
        let from = step_or(0, Column::FromStep, 0, self.period - 1, fields)?;
        let to = step_or(self.period, Column::ToStep, from + 1, self.period, fields)?;
        Ok(DemandCell {
            line: fields.line(),
            origin,
            destination,
            volume,
            from,
            to,
        })
    }

    fn push(&mut self, cell: DemandCell) -> Result<(), AllocError> {
        self.cells.push(cell)?;
        Ok(())
    }
}

/// Reads a demand table for a period of so many steps: the columns `o_zone_id` and `d_zone_id`,
/// the identifiers of the zones where vehicles start and end, and `volume`, the vehicles, of which
/// a demand cell has thousandths. They depart from `from_step` to before `to_step`, which may be
/// missing or empty: 0 and the period stand in their places. Such a window has a step, and ends
/// with the period at the latest. A zone may be one that the network doesn't have, and each demand
/// cell keeps its line. The columns are this project's own. The refusal is the table's first
/// fault, or want of memory.
pub fn read_demand(alloc: Global, text: &[u8], period: u32) -> Result<Vec<DemandCell>, TableRefusal>
    requires lasts { 1 ≤ period }
    ensures cells { IfOk result (λ cells.
        demand_verdict period (records text.now) ≡ Ok cells.items) }
    ensures refused { IfErr result (λ refusal.
        Tells (demand_verdict period (records text.now)) (Err refusal)) }
    ensures sound { IfOk result (λ cells. AreDemandCells period cells.items) }
{
    let table = DemandTable {
        period,
        cells: Vec::new(alloc),
    };
    let required = [Column::OZoneId, Column::DZoneId, Column::Volume];
    let table = read_rows(alloc, Table::Demand, &required, text, table)?;
    Ok(table.cells)
}
