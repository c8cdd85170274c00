//! How far the routes of an iteration are from the least ones, in whole steps.
//!
//! [`gap_by_shares`] tells the least times of all vehicles that have routes, walks their routes
//! over the same costs, and sums both in 128 bits, in threads. Its contract is the gap of an
//! iteration (specs/Gap.antt). [`gap_line_by_shares`] is the same where the least times are told
//! already; [`gap`] and [`gap_line`] work in the calling thread.
//!
//! In a thread the labels of up to eight destinations are there at once; beside them it takes 44
//! bytes for each vehicle.
#![tactic(auto)]

mod laws;
mod line;
mod measure;
mod shares;
mod timed_trips;

pub use laws::gap_lines_are_determined;
pub use line::GapLine;
pub use measure::{gap, gap_by_shares, gap_line, gap_line_by_shares};
pub use timed_trips::TimedTrips;
