// The labels of one zone in a table of labels, and what they are read with.
use crate::filling::label_table::LabelTable;
use crate::states::router::Router;
use net_core::Net;
use trip_costs::WalkCosts;

/// The labels of a zone, by its number: those at its place of a table, over a network, its router
/// and the costs of its links.
#[derive(Clone, Copy, Drop)]
pub(crate) struct ZoneLabels<'a> {
    pub(crate) net: &'a Net,
    pub(crate) zone: u32,
    pub(crate) table: &'a LabelTable,
    pub(crate) place: usize,
    pub(crate) router: &'a Router,
    pub(crate) costs: WalkCosts<'a>,
}
