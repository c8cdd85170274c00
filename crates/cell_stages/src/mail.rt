// Mail between nodes.
use link_queues::Line;

/// What one link's nodes hand to each other: nothing, or the room of the link, which is that since
/// a step, or the batch of riders that enter it in a step. A link without a bound has no room
/// told.
#[derive(Drop)]
pub enum Mail {
    Away,
    Room { step: u32, room: Option<u32> },
    Batch { step: u32, line: Line },
}
