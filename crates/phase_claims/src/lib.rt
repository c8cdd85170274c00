//! The units of a loading, claimed by passes in any threads.
//!
//! A [`Floor`] counts in one shared word the numbers drawn, and in another the units finished. A
//! [`Pass`] claims a chunk of numbers in a row, opens those of one phase as soon as all units of
//! earlier phases are finished, performs them one after another, and finishes them together, as
//! the dynamic schedule of OpenMP does. Claims and finishes are single additions and an open is one
//! load, so no pass ever waits for another. The promise is that of the claim machine, in which a
//! pass is a worker, whatever the threads do between two steps: each unit is held or performed by
//! one pass at most, no phase begins before the earlier ones are finished, and a place that no open
//! unit uses has what the performed units left there. specs/Running.antt is the rule that each step
//! keeps: [`Floor::table`] says that it is the rule of the floor's table. [`Floor::new`] alone takes
//! memory.
#![tactic(auto)]

mod floor;
mod laws;
mod noted_cell;
mod part;
mod pass;
mod receipt;
mod rule;
mod start;
mod unit;
mod view;
mod work;
mod work_close;
mod work_counts;
mod work_links;
mod work_posting;
mod work_told;
mod work_unit;

pub use claim_core::UnitKind;
pub use dta_model::{MOST_CHUNK, Stage};
pub use floor::{Floor, MOST_PASSES};
pub use laws::{floors_are_claims, states_are_shown, steps_are_events};
pub use part::Part;
pub use pass::Pass;
pub use receipt::{Early, Receipt};
pub use rule::{Claiming, Key, PassSeat, SharedTable};
pub use unit::{Chunk, Open, Unit};
pub use view::{Scope, View};
