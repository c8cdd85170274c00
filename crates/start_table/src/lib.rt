//! Start tables: the routes of an earlier table of agents, for those who have them already.
//!
//! [`read_start`] reads a start table, and answers exactly its rows or exactly its first fault.
//! [`LinkIndex::walk_of`] tells the walk of a row that fits a vehicle. Other tables that name links
//! are read with [`ids_in`], and [`LinkIndex::walk_named`] tells the walk that identifiers name.
#![tactic(auto)]

mod reading;
mod rows;
mod walks;

pub use reading::{ids_in, read_start};
pub use rows::{Ids, MOST_START_ROWS, StartRow, StartRows};
pub use walks::LinkIndex;
