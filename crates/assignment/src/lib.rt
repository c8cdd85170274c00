//! The iterations of an assignment: routes, loadings, link times and gaps (successive averages
//! over loadings, Zhou and Taylor 2014).
//!
//! An [`Assignment`] says what is assigned. [`begin`] gives the first [`Iteration`]. Who calls it
//! loads, plainly or by workers, and gives the journeys to [`advance`], which measures the costs
//! and the gap and makes the routes of the next iteration, or after the last one to
//! [`finish`]. What that gives ([`Assigned`]) is told by the texts of reports; [`summary_of`] has
//! the numbers of the report. The definitions of an iteration (specs/Assignment.antt) stand here
//! and nowhere else.
#![tactic(auto)]

mod iterations;
mod lent;
mod summary;

pub use iterations::{Assigned, Iteration, advance, begin, finish};
pub use lent::Assignment;
pub use summary::summary_of;
