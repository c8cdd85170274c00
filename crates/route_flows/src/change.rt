// A change of routes.
ghost use Rattle.std.specs.Prelude.{◌≤◌};
ghost use Rattle.route_flows.specs.declared.selection.TheConstants.{MOST_ITERATION};

use trip_costs::WalkCosts;

/// After which iteration routes change, and by which costs.
#[derive(Clone, Copy, Drop)]
pub(crate) struct Change<'a> {
    pub(crate) costs: WalkCosts<'a>,
    pub(crate) k: u32,
    ghost few: { k ≤ MOST_ITERATION },
}
