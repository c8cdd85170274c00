// A skim as a list.
use item_list::List;

/// The least steps from a zone to another, started in a step; None where there is no walk. Zones
/// are identifiers.
#[derive(Clone, Copy, Debug, PartialEq, Eq, Drop)]
pub struct SkimEntry {
    pub origin: u64,
    pub destination: u64,
    pub start: u32,
    pub least: Option<u64>,
}

/// The entries of a skim, in order.
pub type Skim = List<SkimEntry>;
