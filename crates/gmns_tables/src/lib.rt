//! Node, link and movement tables of the General Modeling Network Specification (GMNS), and the
//! network that they make.
//!
//! This crate carries the promise that a table is accepted or refused with its first fault: a
//! reader answers exactly the rows that its table's records give, or the least line at which a
//! check fails with the first check that fails there. The checks of a line stand in specs/Nodes,
//! specs/Links and specs/Movements, a line a column, and those of capacities in time windows in
//! specs/Windows.
#![tactic(auto)]

mod link_table;
mod links;
mod movement_table;
mod names;
mod network;
mod nodes;
mod turns;
mod windows;
mod with_windows;

pub use fixed_units::Units;
pub use link_table::read_links;
pub use links::LinkRows;
pub use movement_table::read_movements;
pub use network::{join_net, read_net};
pub use nodes::{NodeRows, read_nodes};
pub use turns::TurnRows;
pub use with_windows::WithWindows;
