// Agent tables.
ghost use Rattle.std.specs.Prelude.{◌≡◌};
ghost use Rattle.row_reader.specs.Columns.{text};
ghost use Rattle.row_reader.specs.FirstFault.{Tells};
ghost use Rattle.row_reader.specs.Records.{records};
ghost use Rattle.agent_table.specs.Agents.{agent_row_of, agents_verdict};
ghost use Rattle.agent_table.specs.Agents.{optional_identifier as optional_identifier_of};
ghost use Rattle.agent_table.specs.declared.rows.TheConstants.{MOST_AGENT_ROWS};

use crate::rows::{AgentRow, AgentRows, MOST_AGENT_ROWS};
use desk_io::{Table, Text};
use row_reader::{Accepted, Column, Complaint, Fields, RowRefusal, TableRefusal, read_rows};
use start_table::ids_in;
use std::alloc::{AllocError, Global};

// The identifier in a field, or none where the field is empty.
#[tactic(auto, unfolding(crate::specs::Agents::optional_identifier))]
fn optional_identifier(column: Column, fields: &Fields<'_>) -> Result<Option<u64>, Complaint>
    ensures { result ≡ optional_identifier_of column (text fields.now column) }
{
    if fields.text(column).is_empty() {
        return Ok(None);
    }
    let number = fields.identifier(column)?;
    Ok(Some(number))
}

// An agent table that is being read.
#[derive(Drop)]
struct AgentTable {
    alloc: Global,
    rows: Vec<AgentRow>,
}

impl Accepted for AgentTable {
    type Item = AgentRow;

    ghost limit = { MOST_AGENT_ROWS };

    ghost rows = { λ t. t.rows.items };

    ghost checks = { λ _. agent_row_of };

    fn most(&self) -> usize {
        MOST_AGENT_ROWS
    }

    #[tactic(auto, unfolding(crate::specs::Agents::agent_row_of))]
    fn row(&self, fields: &Fields<'_>) -> Result<AgentRow, RowRefusal> {
        let agent = fields.identifier(Column::AgentId)?;
        let origin = fields.identifier(Column::OZoneId)?;
        let destination = fields.identifier(Column::DZoneId)?;
        let departure = fields.identifier(Column::DepartureStep)?;
        let arrival = optional_identifier(Column::ArrivalStep, fields)?;
        let links = ids_in(self.alloc, Column::LinkIds, fields.text(Column::LinkIds))?;
        let steps = fields.text(Column::EntrySteps);
        let entries = ids_in(self.alloc, Column::EntrySteps, steps)?;
        let status = Vec::from_slice(self.alloc, fields.text(Column::Status))?;
        Ok(AgentRow {
            agent,
            origin,
            destination,
            departure,
            arrival,
            status: Text::of(status),
            links,
            entries,
        })
    }

    fn push(&mut self, agent: AgentRow) -> Result<(), AllocError> {
        self.rows.push(agent)?;
        Ok(())
    }
}

/// Reads an agent table: the columns `agent_id`, `o_zone_id`, `d_zone_id` and `departure_step`,
/// identifiers, `arrival_step`, which is empty or an identifier, `status`, any text, and
/// `link_ids` and `entry_steps`, which are empty or have identifiers joined by semicolons. They
/// are columns of Agent. The refusal is the table's first fault, or want of memory.
pub fn read_agents(alloc: Global, text: &[u8]) -> Result<AgentRows, TableRefusal>
    ensures { Tells (agents_verdict (records text.now)) result }
{
    let table = AgentTable {
        alloc,
        rows: Vec::new(alloc),
    };
    let required = [
        Column::AgentId,
        Column::OZoneId,
        Column::DZoneId,
        Column::DepartureStep,
        Column::ArrivalStep,
        Column::Status,
        Column::LinkIds,
        Column::EntrySteps,
    ];
    let table = read_rows(alloc, Table::Start, &required, text, table)?;
    Ok(AgentRows::of(table.rows))
}
