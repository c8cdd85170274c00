//! The tests of the libraries below, and the networks and loadings that they take.
//!
//! No library below has tests: a crate with tests is proved twice, once with them and once
//! without. A call that `run` makes is tried by whole runs. Here stand the tests of what no whole
//! run shows: calls that no command makes, puts that fail in mid-stream, and threads that work at
//! the same time.
//!
//! A [`Case`] is a sound loading that is written out. A test takes one, makes its call over
//! [`Case::loading`], and compares with the values that it expects.
#![tactic(auto)]

mod case;
mod loadings;
mod networks;
mod rows;
mod seen;
mod written;

pub use case::Case;
pub use loadings::{a_link_without_capacity, two_links_in_a_line};
pub use networks::{a_loop_that_pays, two_links};
pub use seen::{Seen, are_seen, journeys};
pub use written::{Way, Written, network};

#[cfg(test)]
mod tests;
