//! One node's step: its moves by the definition of a node's moves, without memory. A move finds its
//! out-link by the number of the first one, or searches them by halves, and walks over those turns
//! of its in-link that have a penalty or a limit.
//!
//! A [`NodeCell`] holds what a node needs of a loading, and a place for the [`Mail`] of each of
//! its links. In each step it first transfers, which makes the node's moves and writes the batch
//! of each out-link that is entered; then it gathers the batches of its in-links. The promise of
//! each call is the content of the cell at the next stage, for every loading of which it has the
//! content before. [`exchange`] does each half of a step over the list of all mail. [`opening`]
//! alone takes memory. A cell can go to another thread and come back. What cells and mail hold at
//! each stage is said in `cell_stages`.
#![tactic(auto)]

mod cell;
mod counts;
pub mod exchange;
mod half;
mod hand_over;
mod laws;
mod lists;
mod mail;
mod rest;
mod start;
mod step;

pub use cell::{CellCounts, NodeCell};
pub use cell_stages::Mail;
pub use half::{Half, HalfStep};
pub use hand_over::hand_over_all;
pub use laws::{
    cells_gather, cells_hand_over, cells_hold_all, counts_add_up, mail_goes_by_links,
    quiet_nodes_stay_idle,
};
pub use lists::{Cells, Mails, Opening};
pub use rest::NO_STEP;
pub use start::opening::opening;
pub use step::in_link::tells_room;
