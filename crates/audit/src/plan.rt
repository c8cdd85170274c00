// How a loading was made that is audited.
use dta_model::Queue;

/// How a loading was made: its queues, the seconds of a step, its steps, and the steps of a bucket
/// of its link times.
#[derive(Clone, Copy, Debug, PartialEq, Eq)]
pub struct Plan {
    pub queue: Queue,
    pub delta: u32,
    pub horizon: u32,
    pub bucket: u32,
}
