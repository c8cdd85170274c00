// How many vehicles enter a link, by the zones between which they go.
use item_list::List;

/// How many vehicles from a zone to a zone, by their identifiers, enter a link. Each counts once.
#[derive(Clone, Copy, Debug, PartialEq, Eq, Drop)]
pub struct ThroughCount {
    pub origin: u64,
    pub destination: u64,
    pub vehicles: u64,
}

/// Counts of the vehicles through a link, by the identifiers of the origin and the destination.
pub type ThroughCounts = List<ThroughCount>;
