// Kinds of queues.

/// The fastest backward wave, in kilometres per hour.
pub const MOST_WAVE: u32 = 100;

/// How the vehicles on a link bound those that enter it.
#[derive(Clone, Copy, Debug, PartialEq, Eq, Drop)]
pub enum Queue {
    /// They don't.
    Point,
    /// A link takes no more vehicles than it stores (Zhou and Taylor 2014).
    Spatial,
    /// A link takes no more vehicles than it stores, and the space of one who left it is free once
    /// a backward wave of so many kilometres per hour, from 1 to 100, has brought it to the entry
    /// (Newell 1993; Zhou and Taylor 2014).
    Newell { wave: u32 },
}
