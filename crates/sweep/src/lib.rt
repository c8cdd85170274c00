//! The assignment for several multiples of the demand.
//!
//! A [`Sweep`] has a [`Scenario`] for each of some scales, in their order: the texts that `assign`
//! puts over the demand's volumes times the scale, rounded down (specs/Scenarios.antt). A scenario
//! begins with its own first routes, loads plainly, and knows no other: its texts depend on no
//! other scale and on no number of workers ([`scenarios_stand_alone`]).
//!
//! [`sweep`] works up to four scenarios at once by fork and join, in rounds of consecutive scales,
//! and keeps their texts until all are done. So the memory is that of one assignment for each
//! scenario at once, and the texts. [`put_sweep`] puts them with a line before each, and a report.
#![tactic(auto)]

mod laws;
mod rounds;
mod scenario;
mod scenario_texts;
mod texts;

pub use laws::scenarios_stand_alone;
pub use rounds::{MOST_AT_ONCE, sweep};
pub use scaled_demand::SweepFault;
pub use scenario::{Scenario, Sweep};
pub use texts::put_sweep;
