// The state of a loading in eight numbers.

/// The state after a number of steps.
#[derive(Clone, Copy, Debug, PartialEq, Eq, Drop)]
pub struct Eight {
    /// The steps that are finished.
    pub steps: u64,
    /// The due vehicles that wait for their first links.
    pub waiting: u64,
    /// The due vehicles on links.
    pub running: u64,
    /// The due vehicles that have arrived.
    pub arrived: u64,
    /// The vehicles on the first four links of the table, and 0 for a link that isn't there.
    pub first: [u64; 4],
}
