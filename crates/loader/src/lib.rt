//! A loading by workers, each in a thread of its own.
//!
//! [`load`] lends one floor to a crew of workers. A worker draws a chunk of units at a time until
//! none is left, waits with it until all earlier phases are finished, and performs its units one
//! after another. The calling thread is worker 0, and puts the watch lines. Where there are too few
//! nodes for all workers the last ones stand by: each of them draws a chunk only where no unit was
//! drawn between two of its looks. The promise is that of the plain simulator: whatever the threads
//! do, and however many they are, the journeys are those of the definition. A [`Gate`] is passed by
//! the workers before each unit, and takes a receipt of the floor that was finished.
#![tactic(auto)]

mod crew;
mod gate;
mod loading;
mod pauses;
mod shares;
mod watch;

pub use gate::{CountGate, Gate, NoGate};
pub use loading::{LoadFault, MOST_WORKERS, load};
pub use watch::Watch;
