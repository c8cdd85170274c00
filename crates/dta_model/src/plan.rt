// A loading as plain data.
use crate::{Queue, Trip};
use net_core::{LinkNo, NetRows};
use std::collections::LinkedList;

/// What a loading lends, without references and capacities, for definitions. No value of it is
/// made.
pub struct Plan {
    pub net: NetRows,
    pub queue: Queue,
    pub delta: u32,
    pub horizon: u32,
    pub trips: LinkedList<Trip>,
    pub routes: LinkedList<Option<LinkedList<LinkNo>>>,
}
