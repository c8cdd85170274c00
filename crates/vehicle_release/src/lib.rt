//! The vehicles that a demand table releases, each row over its window.
//!
//! [`release`] answers exactly the trips of the definition, or the first row with which the
//! vehicles are too many.
#![tactic(auto)]

mod fault;
mod sums;
mod trips;

pub use fault::ReleaseFault;
pub use sums::with_row;
pub use trips::release;
