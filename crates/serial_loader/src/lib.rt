//! The plain simulator: a loading on one processor, one node after another.
//!
//! [`load_plain`] is the loading to which every other way of loading is equal. In each step all
//! nodes make their transfers, and then all nodes their gathers. Its promise is that it gives
//! exactly the journeys of the definition, for every sound loading; only memory can fail.
//!
//! A node at which nobody is ready is left as it is until its next step or until somebody comes,
//! and its mail too. Nothing of it changes by that.
#![tactic(auto)]

mod phases;
mod plain;

pub use plain::load_plain;
