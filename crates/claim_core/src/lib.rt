//! The units of a loading, claimed by workers.
//!
//! Each step of a loading has a unit for the transfer of each node, one for each node's gather,
//! and one for the posting of the state. Workers claim them by number, in any order of events. A
//! claim may draw several numbers in a row, a chunk. Its worker opens them phase by phase, and
//! finishes those of one phase together. The laws say what holds after every list of events: each
//! unit is given once, no phase of a step begins before the earlier ones are finished, and where
//! whole steps are finished the parts are those of the plain loading.
#![tactic(auto)]

mod claims;
mod laws;
mod machine;
mod phase;
mod units;
mod work;

pub use dta_model::{Event, Outcome};
pub use laws::{
    earlier_units_are_finished, held_units_were_given, later_units_are_not, numbers_rise,
    open_units_are_of_the_phase, parts_are_of_whole_steps, places_rise, units_are_held_once,
    units_of_a_phase_share_no_place,
};
pub use machine::Machine;
pub use phase::{Phase, PhaseKind};
pub use units::{UnitKind, Units};
