//! Demand times a scale, and the first scale with which the vehicles are too many.
//!
//! [`scaled_cells`] gives the rows of a demand table with their volumes times a scale, rounded down
//! (specs/Scales.antt); their windows stay. [`check_scales`] looks at the scenarios of a sweep one
//! after another, and tells the first whose vehicles are too many, without memory.
#![tactic(auto)]

mod fault;
mod limits;
mod scales;

pub use fault::SweepFault;
pub use limits::check_scales;
pub use scales::scaled_cells;
