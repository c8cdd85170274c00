//! Turning counts of a loading, the vehicles that enter a link, and the text of both.
//!
//! [`count_turns`] tells how many moves take each turn in each bucket of steps, and
//! [`count_through`] between which zones the vehicles go that enter a link. The contract of each
//! is its definition over the whole trace of the loading (specs/Turns.antt, specs/Through.antt).
//! [`put_counts`] puts both to a desk as one text (specs/Text.antt), and takes no memory.
//!
//! The counting calls go once over the journeys of a loading, gather what they count, put it in
//! order and count what is the same: with n turns, or n vehicles that enter the link, that is
//! n log n comparisons. Gathered are 12 bytes for each turn, or 16 for each vehicle that enters
//! the link, in a list that doubles while it grows; beside it stand the counts, 24 bytes each.
#![tactic(auto)]

mod laws;
mod text;
mod through;
mod through_counts;
mod turn_counts;
mod turns;

pub use laws::{through_counts_in_any_order, turn_counts_in_any_order};
pub use text::put_counts;
pub use through::count_through;
pub use through_counts::{ThroughCount, ThroughCounts};
pub use turn_counts::{TurnCount, TurnCounts};
pub use turns::count_turns;
