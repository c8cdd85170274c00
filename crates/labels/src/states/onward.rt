// Ways on from where a link ends.

/// A way on: the steps that it waits, the link that it enters, and the state where that link ends.
#[derive(Clone, Copy, Drop)]
pub(crate) struct Onward {
    pub(crate) wait: u32,
    pub(crate) link: u32,
    pub(crate) to: u32,
}
