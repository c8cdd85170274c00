// The network of tables.
ghost use Rattle.std.specs.Prelude.{◌≡◌, ◌≤◌, All, length, option_map, Ok, Err, IfOk, IfErr};
ghost use Rattle.std.specs.Prelude.{IfSome};
ghost use Rattle.row_reader.specs.FirstFault.{Tells};
ghost use Rattle.row_reader.specs.Records.{records};
ghost use Rattle.net_core.specs.Network.{IsNet};
ghost use Rattle.net_core.specs.Rows.{IsTurning};
ghost use Rattle.gmns_tables.specs.Net.{TellsNet, listed_turns, listed_verdict, net_of};
ghost use Rattle.gmns_tables.specs.Net.{net_verdict};
ghost use Rattle.gmns_tables.specs.RowsWithWindows.{AreTurnRows, rows_of, windows_of};
ghost use Rattle.fixed_units.specs.Units.{IsUnits};

use crate::link_table::read_links;
use crate::links::LinkRows;
use crate::movement_table::read_movements;
use crate::nodes::{NodeRows, read_nodes};
use crate::turns::TurnRows;
use crate::with_windows::RowParts;
use fixed_units::Units;
use net_core::{Memory, Net, TurnRow};
use row_reader::TableRefusal;
use std::alloc::Global;

/// The network of tables that were read from one another, with the windows of its links and turns.
/// Without turns each link may be followed by every link that begins where it ends.
pub fn join_net(
    alloc: Global,
    nodes: NodeRows,
    links: LinkRows,
    turns: Option<TurnRows>,
) -> Result<Net, Memory>
    requires { IsNet (net_of nodes links turns) }
    ensures { IfOk result (λ net. net ≡ net_of nodes links turns) }
{
    let links = links.into_parts();
    let turns = parts_of(alloc, turns);
    Net::with_windows(
        alloc,
        nodes.into_vec(),
        links.rows,
        turns.rows,
        links.windows,
        turns.windows,
    )
}

// The turns of a movement table that may be missing, and the windows of each.
fn parts_of(alloc: Global, turns: Option<TurnRows>) -> RowParts<TurnRow>
    ensures rows { result.rows.items ≡ rows_of (listed_turns turns) }
    ensures windows { result.windows.items ≡ windows_of (listed_turns turns) }
{
    match turns {
        Some(turns) => turns.into_parts(),
        None => RowParts {
            rows: Vec::new(alloc),
            windows: Vec::new(alloc),
        },
    }
}

/// Reads the network of a node, a link and a movement table, in this order. The refusal is the
/// first fault of the first table that has one, or want of memory. A movement table of zero bytes
/// stands for none.
pub fn read_net(
    alloc: Global,
    node: &[u8],
    link: &[u8],
    movement: Option<&[u8]>,
    units: &Units,
) -> Result<Net, TableRefusal>
    requires units { IsUnits units.now }
    requires there { IfSome movement (λ text. 1 ≤ length text.now) }
    ensures { TellsNet (net_verdict units.now (records node.now) (records link.now)
        (option_map (λ text. records text.now) movement.entry)) result }
{
    let nodes = read_nodes(alloc, node)?;
    let links = read_links(alloc, &nodes, link, units)?;
    let turns = read_listed(alloc, &nodes, &links, movement, units)?;
    match join_net(alloc, nodes, links, turns) {
        Ok(net) => Ok(net),
        Err(_) => Err(TableRefusal::Memory),
    }
}

// The turns of a movement table that may be missing.
fn read_listed(
    alloc: Global,
    nodes: &NodeRows,
    links: &LinkRows,
    movement: Option<&[u8]>,
    units: &Units,
) -> Result<Option<TurnRows>, TableRefusal>
    requires units { IsUnits units.now }
    requires there { IfSome movement (λ text. 1 ≤ length text.now) }
    ensures rows { let told = listed_verdict nodes.now (rows_of links.now) units.now
        (option_map (λ text. records text.now) movement.entry) in
        IfOk result (λ turns. told ≡ Ok (listed_turns turns)) }
    ensures refused { let told = listed_verdict nodes.now (rows_of links.now) units.now
        (option_map (λ text. records text.now) movement.entry) in
        IfErr result (λ refusal. Tells told (Err refusal)) }
    ensures sound { IfOk result (λ turns. AreTurnRows (listed_turns turns)) }
    ensures turning { IfOk result (λ turns.
        All (IsTurning (rows_of links.now)) (rows_of (listed_turns turns))) }
{
    match movement {
        Some(text) => match read_movements(alloc, nodes, links, text, units) {
            Ok(turns) => Ok(Some(turns)),
            Err(refusal) => Err(refusal),
        },
        None => Ok(None),
    }
}
