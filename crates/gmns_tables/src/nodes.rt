// Node tables, and the nodes of a table that was accepted.
ghost use Rattle.std.specs.Prelude.{◌≡◌, ◌<◌, [], length, None, IfOk, IfSome, is_some};
ghost use Rattle.fixed_units.specs.Zone.{zone_of};
ghost use Rattle.row_reader.specs.Columns.{text};
ghost use Rattle.row_reader.specs.FirstFault.{Tells};
ghost use Rattle.row_reader.specs.Records.{records};
ghost use Rattle.row_reader.specs.declared.faults.Column.TheVariants as column;
ghost use Rattle.net_core.specs.Ids.{place_of};
ghost use Rattle.net_core.specs.Rows.{AreNodes, node_ids, node_named};
ghost use Rattle.net_core.specs.declared.rows.TheConstants.{MOST_NODES};
ghost use Rattle.gmns_tables.specs.Nodes.{node_of, node_verdict, zone_told};

use desk_io::Table;
use fixed_units::zone;
use net_core::{Ids, MOST_NODES, NodeNo, NodeRow};
use row_reader::{
    Accepted, Code, Column, Complaint, Fields, RowRefusal, TableRefusal, not_a_number, read_rows,
    unless,
};
use std::alloc::{AllocError, Global};
use std::marker::Model;

/// The nodes of a table, in its order, with different identifiers.
#[derive(Drop)]
pub struct NodeRows {
    items: Vec<NodeRow>,
    ids: Ids,
}

impl Model for NodeRows {
    ghost use Rattle.std.specs.Prelude.{◌≡◌, List};
    ghost use Rattle.net_core.specs.Rows.{AreNodes, node_ids};
    ghost use Rattle.net_core.specs.declared.rows.NodeRow.{NodeRow};

    ghost Value = { List NodeRow };

    ghost view = { λ a. a.items.items };

    ghost invariant = { λ a. (a.ids ≡ node_ids a.items.items) × AreNodes a.items.items };
}

impl NodeRows {
    // No nodes yet.
    pub(crate) fn new(alloc: Global) -> Self
        ensures { result ≡ [] }
    {
        NodeRows {
            items: Vec::new(alloc),
            ids: Ids::new(alloc),
        }
    }

    /// The nodes.
    pub fn as_slice(&self) -> &[NodeRow]
        ensures nodes { result.now ≡ self.now }
        ensures sound { AreNodes self.now }
    {
        &self.items
    }

    /// The node that has an identifier.
    pub fn place(&self, id: u64) -> Option<NodeNo>
        ensures node { result ≡ node_named self.now id }
        ensures within { IfSome result (λ node. node.0 < length self.now) }
    {
        match self.ids.place(id) {
            Some(place) => Some(NodeNo(place as u32)),
            None => None,
        }
    }

    /// The nodes.
    pub fn into_vec(self) -> Vec<NodeRow>
        ensures nodes { result.items ≡ self }
        ensures sound { AreNodes self }
    {
        self.items
    }

    // Whether a node has an identifier.
    fn contains(&self, id: u64) -> bool
        ensures { result ≡ is_some (place_of (node_ids self.now) id) }
    {
        self.ids.place(id).is_some()
    }
}

impl Accepted for NodeRows {
    type Item = NodeRow;

    ghost limit = { MOST_NODES };

    ghost rows = { λ nodes. nodes };

    ghost checks = { λ _. node_of };

    ghost fits = { λ nodes node. place_of (node_ids nodes) node.id ≡ None };

    fn most(&self) -> usize {
        MOST_NODES
    }

    #[tactic(auto, unfolding(crate::specs::Nodes::node_of))]
    fn row(&self, fields: &Fields<'_>) -> Result<NodeRow, RowRefusal> {
        let id = fields.identifier(Column::NodeId)?;
        unless(self.contains(id), Code::E6, Column::NodeId)?;
        let zone = zone_field(fields)?;
        Ok(NodeRow { id, zone })
    }

    fn push(&mut self, row: NodeRow) -> Result<(), AllocError> {
        self.items.reserve(1)?;
        self.ids.add(row.id)?;
        self.items.push(row)?;
        Ok(())
    }
}

/// Reads a node table of GMNS: the column `node_id`, an identifier, and the optional column
/// `zone_id`, the identifier of the node's zone. A zone that is empty, 0 or -1 is none.
/// The refusal is the table's first fault, or want of memory.
pub fn read_nodes(alloc: Global, text: &[u8]) -> Result<NodeRows, TableRefusal>
    ensures rows { Tells (node_verdict (records text.now)) result }
    ensures sound { IfOk result AreNodes }
{
    let rows = read_rows(
        alloc,
        Table::Node,
        &[Column::NodeId],
        text,
        NodeRows::new(alloc),
    )?;
    // What holds of all accepted nodes is known where they are seen.
    let _seen = rows.as_slice();
    Ok(rows)
}

// The zone of a record.
fn zone_field(fields: &Fields<'_>) -> Result<Option<u64>, Complaint>
    ensures { result ≡ zone_told (zone_of (text fields.now column.ZoneId)) }
{
    match zone(fields.text(Column::ZoneId)) {
        Ok(zone) => Ok(zone),
        Err(fault) => Err(not_a_number(Column::ZoneId, fault)),
    }
}
