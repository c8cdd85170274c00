// Trips over costs.
ghost use Rattle.gap.specs.Timed.{AreTimed};
ghost use Rattle.trip_costs.specs.WalkCosts.{table_in};

use dta_model::Trip;
use net_core::Net;
use trip_costs::WalkCosts;

/// The trips of vehicles, and the costs of walks over their network.
#[derive(Clone, Copy, Drop)]
pub struct TimedTrips<'a> {
    pub net: &'a Net,
    pub costs: WalkCosts<'a>,
    pub trips: &'a [Trip],
    ghost are: { AreTimed net.now (table_in costs) trips.now },
}
