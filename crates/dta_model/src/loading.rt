// What is loaded.

use crate::{Queue, Routes, Trip};
use net_core::Net;

/// The longest horizon, in steps.
pub const MOST_HORIZON: u32 = 86_400;

/// The most of links times steps of the horizon.
pub const MOST_LINK_STEPS: u64 = 67_108_864;

/// What is loaded, over which network, and by which kind of queue. It lends its parts.
///
/// `delta` is the length of a step in seconds, `horizon` the number of steps. Trips and routes are
/// in the order of vehicles. It is sound where `IsSound` holds of its plan; each call that takes a
/// loading has this as its condition.
#[derive(Clone, Copy, Drop)]
pub struct Loading<'a> {
    pub net: &'a Net,
    pub queue: Queue,
    pub delta: u32,
    pub horizon: u32,
    pub trips: &'a [Trip],
    pub routes: &'a Routes,
}
