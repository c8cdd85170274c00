// Lists in which walks are found.
use crate::reading::fewest::Search;
use net_core::LinkNo;
use std::alloc::Global;

/// The lists in which walks are searched for and gathered. They serve one walk after another, so
/// that memory is asked for once.
#[derive(Drop)]
pub struct WalkLists {
    pub(crate) links: Vec<LinkNo>,
    pub(crate) search: Search,
}

impl WalkLists {
    /// Lists for a first walk.
    pub fn new(alloc: Global) -> Self {
        WalkLists {
            links: Vec::new(alloc),
            search: Search::new(alloc),
        }
    }
}
