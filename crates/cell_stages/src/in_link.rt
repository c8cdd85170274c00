// An in-link of a node.
use crate::{Exit, Mail};
use link_queues::{Leavings, Line};

/// An in-link: who is on it, how many left it in each of the last steps, what lets its heads go,
/// its storage, if that bounds it, and the place of its mail.
#[derive(Drop)]
pub struct InLink {
    pub line: Line,
    pub left: Leavings,
    pub exit: Exit,
    pub storage: Option<u32>,
    pub mail: Mail,
}
