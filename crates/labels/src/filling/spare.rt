// The memory of a table that is read no more.
use crate::filling::eight::Eight;
use crate::filling::four::Four;
use std::alloc::Global;

/// Labels that are read no more, whose place the next table of the same form takes; none before
/// the first.
#[derive(Drop)]
pub struct Spare {
    pub(crate) short: Vec<Eight>,
    pub(crate) narrow: Vec<Four>,
}

impl Spare {
    /// No memory.
    pub fn none(alloc: Global) -> Self {
        Spare {
            short: Vec::new(alloc),
            narrow: Vec::new(alloc),
        }
    }
}
