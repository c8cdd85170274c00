// The law of skims: the contract of a function that does nothing.
ghost use Rattle.traffic_laws.specs.LeastTimes.{SkimsAreNoSlower};

/// A skim is never above the time of a route that a vehicle has between its zones, started in the
/// step of the entry, in the same table of link times.
pub fn no_route_is_faster_than_a_skim()
    ensures { SkimsAreNoSlower }
{}
