// The gap of an iteration in four numbers.

/// The gap of an iteration, over the vehicles that have a route.
#[derive(Clone, Copy, Debug, PartialEq, Eq, Drop)]
pub struct GapLine {
    /// The steps of their routes, summed.
    pub route_steps: u128,
    /// Their least steps, summed.
    pub least_steps: u128,
    /// The first sum less the second.
    pub gap_steps: u128,
    /// The gap in parts per million of the least steps, rounded down; 0 where those are 0.
    pub ppm: u128,
}
