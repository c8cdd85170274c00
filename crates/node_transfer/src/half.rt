// The two halves of a node's step.
use net_core::NodeNo;

/// What a node does in a step: its transfer, and then its gather. Each takes the mail of some
/// links of the node, and leaves other mail in its place.
#[derive(Clone, Copy, Drop)]
pub enum Half {
    /// The mail of the out-links tells their rooms, and becomes the batches of those that are
    /// entered.
    Transfer,
    /// The mail of the in-links is the batches of those that were entered, and tells their rooms
    /// of the next step then.
    Gather,
}

/// A half of the step of a node.
#[derive(Clone, Copy, Drop)]
pub struct HalfStep {
    pub half: Half,
    pub node: NodeNo,
    pub step: u32,
}
