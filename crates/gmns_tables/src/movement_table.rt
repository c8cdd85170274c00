// Movement tables.
ghost use Rattle.std.specs.Prelude.{◌≡◌, ◌≤◌, ◌<◌, All, length, option_map, None, IfOk, IfSome};
ghost use Rattle.fixed_units.specs.Units.{turn_rate_of};
ghost use Rattle.fixed_units.specs.declared.quantity.TheConstants.{MOST_THOUSANDTHS};
ghost use Rattle.fixed_units.specs.declared.turn.TheConstants.{MOST_PENALTY};
ghost use Rattle.row_reader.specs.Columns.{text};
ghost use Rattle.row_reader.specs.FirstFault.{Tells};
ghost use Rattle.row_reader.specs.Records.{records};
ghost use Rattle.row_reader.specs.declared.faults.Column.TheVariants as column;
ghost use Rattle.net_core.specs.Ids.{place_of_pair};
ghost use Rattle.net_core.specs.Rates.{AreWindows};
ghost use Rattle.net_core.specs.Rows.{IsTurnInRange, IsTurning, turn_pairs};
ghost use Rattle.fixed_units.specs.declared.link.TheConstants.{MOST_RATE};
ghost use Rattle.net_core.specs.declared.rows.TheConstants.{MOST_TURNS};
ghost use Rattle.gmns_tables.specs.Movements.{begins_at as begins_at_of, ends_at as ends_at_of};
ghost use Rattle.gmns_tables.specs.Movements.{movement_of, movement_verdict};
ghost use Rattle.gmns_tables.specs.Movements.{penalty_of};
ghost use Rattle.gmns_tables.specs.RowsWithWindows.{AreTurnRows, IsNextTurn, rows_of};
ghost use Rattle.fixed_units.specs.Units.{IsUnits};

use crate::links::LinkRows;
use crate::names::{known_link, known_node};
use crate::nodes::NodeRows;
use crate::turns::TurnRows;
use crate::windows::{WindowsOf, read_windows};
use crate::with_windows::WithWindows;
use desk_io::Table;
use fixed_units::{MOST_PENALTY, Units, penalty_steps, turn_rate};
use net_core::{LinkNo, MOST_TURNS, NodeNo, TurnRow};
use row_reader::{
    Accepted, Code, Column, Complaint, Fields, RowRefusal, TableRefusal, read_rows, unless, within,
};
use std::alloc::{AllocError, Global};

// The penalty of a turn whose field is empty, in thousandths of a second.
const DEFAULT_PENALTY: u64 = 0;

// A movement table that is being read.
#[derive(Drop)]
struct MovementTable<'a> {
    alloc: Global,
    nodes: &'a NodeRows,
    links: &'a LinkRows,
    units: Units,
    rows: TurnRows,
    ghost sound: { IsUnits units },
}

impl Accepted for MovementTable<'_> {
    type Item = WithWindows<TurnRow>;

    ghost limit = { MOST_TURNS };

    ghost rows = { λ t. t.rows };

    ghost checks = { λ t. movement_of t.nodes.now (rows_of t.links.now) t.units };

    ghost fits = { λ t. IsNextTurn t.rows };

    fn most(&self) -> usize {
        MOST_TURNS
    }

    #[tactic(auto, unfolding(crate::specs::Movements::movement_of))]
    fn row(&self, fields: &Fields<'_>) -> Result<WithWindows<TurnRow>, RowRefusal> {
        let links = self.links;
        let node = known_node(self.nodes, Column::NodeId, fields)?;
        let a = known_link(links, Column::IbLinkId, fields)?;
        unless(!ends_at(links, a, node), Code::E9, Column::IbLinkId)?;
        let b = known_link(links, Column::ObLinkId, fields)?;
        unless(!begins_at(links, b, node), Code::E9, Column::ObLinkId)?;
        unless(self.rows.contains(a, b), Code::E6, Column::ObLinkId)?;
        let penalty = penalty(fields)?;
        let capacity = fields.optional_quantity(Column::Capacity)?;
        let by_step = fields.text(Column::CapacityByStep);
        let windows = read_windows(self.alloc, WindowsOf::Turn, by_step)?;
        let row = TurnRow {
            a,
            b,
            penalty: penalty_steps(penalty, self.units.delta),
            rate: rate(capacity),
        };
        Ok(WithWindows { row, windows })
    }

    fn push(&mut self, turn: WithWindows<TurnRow>) -> Result<(), AllocError> {
        self.rows.push(turn)
    }
}

/// Reads a movement table of GMNS over its nodes and links: the columns `node_id`, `ib_link_id`
/// and `ob_link_id`, and the optional columns `penalty`, in seconds, and `capacity` and
/// `capacity_by_step`, in vehicles per hour. Where a field is empty there is no penalty, no limit,
/// and the same limit in all steps. The refusal is the table's first fault, or want of memory. A
/// text of zero bytes stands for no table, and isn't read.
pub fn read_movements(
    alloc: Global,
    nodes: &NodeRows,
    links: &LinkRows,
    text: &[u8],
    units: &Units,
) -> Result<TurnRows, TableRefusal>
    requires units { IsUnits units.now }
    requires there { 1 ≤ length text.now }
    ensures rows { Tells (movement_verdict nodes.now (rows_of links.now) units.now
        (records text.now)) result }
    ensures sound { IfOk result AreTurnRows }
    ensures turning { IfOk result (λ turns. All (IsTurning (rows_of links.now)) (rows_of turns)) }
{
    let table = MovementTable {
        alloc,
        nodes,
        links,
        units: *units,
        rows: TurnRows::new(alloc),
    };
    let required = [Column::NodeId, Column::IbLinkId, Column::ObLinkId];
    let table = read_rows(alloc, Table::Movement, &required, text, table)?;
    // What holds of all accepted turns is known where they are seen.
    let _seen = table.rows.as_slice();
    Ok(table.rows)
}

// Whether a link ends at a node.
#[tactic(auto, unfolding(net_core::specs::Rows::link_in))]
fn ends_at(links: &LinkRows, link: LinkNo, node: NodeNo) -> bool
    requires { link.0 < length (rows_of links.now) }
    ensures { result ≡ ends_at_of (rows_of links.now) link node }
{
    links.as_slice()[link.0 as usize].to.0 == node.0
}

// Whether a link begins at a node.
#[tactic(auto, unfolding(net_core::specs::Rows::link_in))]
fn begins_at(links: &LinkRows, link: LinkNo, node: NodeNo) -> bool
    requires { link.0 < length (rows_of links.now) }
    ensures { result ≡ begins_at_of (rows_of links.now) link node }
{
    links.as_slice()[link.0 as usize].from.0 == node.0
}

// The penalty of a record, in thousandths of a second.
fn penalty(fields: &Fields<'_>) -> Result<u64, Complaint>
    ensures value { result ≡ penalty_of (text fields.now column.Penalty) }
    ensures most { IfOk result (λ n. n ≤ MOST_PENALTY) }
{
    let penalty = fields.quantity_or(DEFAULT_PENALTY, Column::Penalty)?;
    within(Column::Penalty, 0, MOST_PENALTY, penalty)
}

// The rate of a turn whose capacity may be without limit.
fn rate(capacity: Option<u64>) -> Option<u64>
    requires { IfSome capacity (λ n. n ≤ MOST_THOUSANDTHS) }
    ensures value { result ≡ option_map turn_rate_of capacity }
    ensures most { IfSome result (λ n. n ≤ MOST_RATE) }
{
    match capacity {
        Some(capacity) => Some(turn_rate(capacity)),
        None => None,
    }
}
