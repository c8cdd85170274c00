//! The work of an assignment: its iterations, with their watch lines and receipts.
//!
//! [`assign`] does all iterations of a job and puts its outputs. Each loading is by workers, who
//! pass a gate, or by the plain loader (specs/Receipts.antt), and puts its watch lines
//! (specs/Progress.antt). It answers a status, which says what was put.
#![tactic(auto)]

mod assigned;
mod halt;
mod iterate;
mod load;

pub use assigned::{assign, assign_plainly};
