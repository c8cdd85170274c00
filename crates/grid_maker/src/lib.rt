//! Grids to try the program on.
//!
//! From a number this crate makes the node, link and demand table of a square grid of streets with
//! a zone at each corner. Its promise: [`grid`] answers exactly the three texts that specs/Grid
//! defines, and refuses exactly the numbers out of range. Its law says that by the definitions of
//! the table readers these texts have no fault, and which rows they give.
#![tactic(auto)]

mod demand_table;
mod draft;
mod laws;
mod link_table;
mod links;
mod maker;
mod node_table;
mod places;

pub use desk_io::Text;
pub use laws::grids_are_accepted;
pub use maker::{GridFault, LEAST_SIDE, MOST_SIDE, Texts, grid};
