//! The state at the end of a loading, from its journeys.
//!
//! [`final_state`] goes once over the journeys of a loading, and takes no memory. Its contract is
//! the definition of the state after the last step over the whole trace (specs/State.antt of
//! `dta_model`): how many vehicles wait, are on links and have arrived, and how many are on each
//! of the first four links.
#![tactic(auto)]

mod state;
mod whereabouts;

pub use state::final_state;
