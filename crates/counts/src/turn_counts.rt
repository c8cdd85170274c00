// How many moves take each turn in each bucket.
use item_list::List;
use net_core::LinkNo;

/// How many moves go from a link to another in a bucket of steps. A vehicle that makes two of them
/// counts twice in `vehicles`. Bucket k has the steps from k times its length on.
#[derive(Clone, Copy, Debug, PartialEq, Eq, Drop)]
pub struct TurnCount {
    pub a: LinkNo,
    pub b: LinkNo,
    pub bucket: u32,
    pub vehicles: u64,
}

/// Counts of turns, by the first link, the second link and the bucket.
pub type TurnCounts = List<TurnCount>;
