// What tables of labels tell: least times and chosen walks.
pub(crate) mod best;
pub(crate) mod fewest;
pub(crate) mod found;
pub(crate) mod group_labels;
pub(crate) mod labels;
pub(crate) mod least;
pub(crate) mod reached;
pub(crate) mod walk;
pub(crate) mod walk_lists;
pub(crate) mod zone_labels;
