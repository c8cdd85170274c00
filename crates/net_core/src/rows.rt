// Rows of a network's tables, and positions in them.
use crate::rates::Window;
use std::collections::LinkedList;

/// The most nodes of a network.
pub const MOST_NODES: usize = 1_000_000;

/// The most links of a network.
pub const MOST_LINKS: usize = 1_000_000;

/// The most listed turns of a network.
pub const MOST_TURNS: usize = 4_000_000;

/// The position of a node in its table, from 0.
#[derive(Clone, Copy, Debug, PartialEq, Eq, Drop)]
pub struct NodeNo(pub u32);

/// The position of a link in its table, from 0.
#[derive(Clone, Copy, Debug, PartialEq, Eq, Drop)]
pub struct LinkNo(pub u32);

/// The position of a zone among the zones in the order of their first appearance, from 0.
#[derive(Clone, Copy, Debug, PartialEq, Eq, Drop)]
pub struct ZoneNo(pub u32);

/// A node: its identifier, and its zone if it has one.
#[derive(Clone, Copy, Debug, PartialEq, Eq, Drop)]
pub struct NodeRow {
    pub id: u64,
    pub zone: Option<u64>,
}

/// A link between two nodes: length in micrometres, free-flow steps, storage in vehicles, and rate
/// in millionths of a vehicle per hour.
#[derive(Clone, Copy, Debug, PartialEq, Eq, Drop)]
pub struct LinkRow {
    pub id: u64,
    pub from: NodeNo,
    pub to: NodeNo,
    pub micrometres: u64,
    pub free: u32,
    pub storage: u32,
    pub rate: u64,
}

/// A listed turn from a link to another, a movement of GMNS: penalty in steps, and rate in
/// millionths of a vehicle per hour if it has a limit.
#[derive(Clone, Copy, Debug, PartialEq, Eq, Drop)]
pub struct TurnRow {
    pub a: LinkNo,
    pub b: LinkNo,
    pub penalty: u32,
    pub rate: Option<u64>,
}

/// What a turn costs: penalty in steps, and rate in millionths of a vehicle per hour if it has a
/// limit.
#[derive(Clone, Copy, Debug, PartialEq, Eq, Drop)]
pub struct Turn {
    pub penalty: u32,
    pub rate: Option<u64>,
}

/// A network as clauses see it: its rows, in the order of their tables, and the windows of links
/// and of listed turns in the same order. A row that has no entry there has no windows. No value
/// of it is made.
pub struct NetRows {
    pub nodes: LinkedList<NodeRow>,
    pub links: LinkedList<LinkRow>,
    pub turns: LinkedList<TurnRow>,
    pub link_windows: LinkedList<LinkedList<Window>>,
    pub turn_windows: LinkedList<LinkedList<Window>>,
}
