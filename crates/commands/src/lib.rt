//! What a command does over its job, and the texts that it puts.
//!
//! The texts of each command's whole work are one definition (specs/Outputs.antt, by the functions
//! of specs/Texts.antt), and settings and a job have one list of them ([`texts_are_one`],
//! specs/Laws.antt). `skim`, `sweep` and `audit` have a call each here, which answers a [`Status`]
//! and says by it what was put (specs/Works.antt). An assignment is begun elsewhere:
//! [`counts_over`] and [`put_assigned`] tell what came out of its last iteration.
#![tactic(auto)]

mod audited;
mod counted;
mod iterated;
mod laws;
mod outputs;
mod skimmed;
mod status;
mod swept;

pub use audited::put_verdict;
pub use counted::{Counted, counts_over};
pub use iterated::Iterated;
pub use laws::texts_are_one;
pub use outputs::put_assigned;
pub use skimmed::put_least_times;
pub use status::Status;
pub use swept::put_scenarios;
