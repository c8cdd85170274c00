// Fields that name a node or a link.
ghost use Rattle.std.specs.Prelude.{◌≡◌, ◌<◌, length, IfOk};
ghost use Rattle.row_reader.specs.Columns.{text};
ghost use Rattle.gmns_tables.specs.Names.{known_link as known_link_of, known_node as known_node_of};
ghost use Rattle.gmns_tables.specs.RowsWithWindows.{rows_of};

use crate::links::LinkRows;
use crate::nodes::NodeRows;
use net_core::{LinkNo, NodeNo};
use row_reader::{Code, Column, Complaint, Fields, complain};

// The node that a required field names.
#[tactic(auto, unfolding(crate::specs::Names::known_node))]
pub(crate) fn known_node(
    nodes: &NodeRows,
    column: Column,
    fields: &Fields<'_>,
) -> Result<NodeNo, Complaint>
    ensures node { result ≡ known_node_of nodes.now column (text fields.now column) }
    ensures within { IfOk result (λ node. node.0 < length nodes.now) }
{
    let id = fields.identifier(column)?;
    match nodes.place(id) {
        Some(node) => Ok(node),
        None => Err(complain(Code::E7, column)),
    }
}

// The link that a required field names.
#[tactic(auto, unfolding(crate::specs::Names::known_link))]
pub(crate) fn known_link(
    links: &LinkRows,
    column: Column,
    fields: &Fields<'_>,
) -> Result<LinkNo, Complaint>
    ensures link { result ≡ known_link_of (rows_of links.now) column (text fields.now column) }
    ensures within { IfOk result (λ link. link.0 < length (rows_of links.now)) }
{
    let id = fields.identifier(column)?;
    match links.place(id) {
        Some(link) => Ok(link),
        None => Err(complain(Code::E8, column)),
    }
}
