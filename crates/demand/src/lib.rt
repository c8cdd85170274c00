//! Demand tables: vehicles from zone to zone.
//!
//! This crate carries the promise that a demand table is accepted or refused with its first fault:
//! [`read_demand`] answers exactly the demand cells that the table's records give, or exactly the
//! least line at which a check fails and the first check that fails there. The checks of a line
//! stand in specs/DemandRows, a line a column.
#![tactic(auto)]

mod demand_rows;

pub use demand_rows::{MOST_DEMAND_CELLS, read_demand};
