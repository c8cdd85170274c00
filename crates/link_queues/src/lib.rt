//! Riders, lines of riders, and how many left a link lately.
//!
//! A [`Rider`] is a vehicle on its way along a route that is its own. A [`Line`] holds riders in
//! order, and its promise is that each call is the one on a list. A move takes the first rider of
//! a line to the end of another, whatever their lengths, and takes no memory: the room for a
//! rider's entry steps is there from the start. [`Leavings`] are how many left a link in each of
//! its last steps, as a list of numbers. [`Rider::new`], [`Line::push`] and [`Leavings::new`]
//! alone take memory.
#![tactic(auto)]

mod leavings;
mod line;
mod rider;
mod ring;

pub use leavings::Leavings;
pub use line::{Line, MOST_RIDERS, PushRefused};
pub use rider::Rider;
