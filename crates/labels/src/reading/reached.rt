// Links that a search has reached.

/// A link that a search has reached: the state and the step in which it ends, the place in the list
/// of the link before it, and the place of the link before it in the list that ends in the same
/// state. Where there is none, that is its own place.
#[derive(Clone, Copy, Drop)]
pub(crate) struct Reached {
    pub(crate) link: u32,
    pub(crate) state: u32,
    pub(crate) step: u64,
    pub(crate) before: usize,
    pub(crate) older: usize,
}
