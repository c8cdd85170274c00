// A router over the costs by which walks are timed.
ghost use Rattle.std.specs.Prelude.{◌≡◌, ◌≤◌, length};
ghost use Rattle.net_core.specs.declared.rows.TheConstants.{MOST_LINKS};
ghost use Rattle.trip_costs.specs.WalkCosts.{table_in};

use crate::states::router::Router;
use trip_costs::WalkCosts;

/// A network's router over the costs of its links, and how many links there are.
#[derive(Clone, Copy, Drop)]
pub(crate) struct TimedRouter<'a> {
    pub(crate) router: &'a Router,
    pub(crate) costs: WalkCosts<'a>,
    pub(crate) links: u32,
    ghost counted: { links ≡ length (table_in costs).free },
    ghost each: { length router.now.states.items ≡ length (table_in costs).free },
    ghost few_states: { length router.now.zones.items ≤ MOST_LINKS },
}
