// Laws of free flow. Each is the contract of a function that does nothing.
ghost use Rattle.dta_model.specs.Sound.{IsSound};
ghost use Rattle.traffic_laws.specs.WideLinks.{one_vehicle};
ghost use Rattle.traffic_laws.specs.FreeFlow.{MovesOnceInAStep, NobodyIsEarly, NothingBinds};
ghost use Rattle.traffic_laws.specs.FreeFlow.{TimesAreFree, TripsAreAtFreeFlow, TripsAreNoFaster};
ghost use Rattle.traffic_laws.specs.FreeFlow.{VisitsAreNoFaster};

/// Each visit takes at least the link's free-flow steps, and with a turn its penalty besides.
pub fn no_visit_is_faster_than_free_flow()
    ensures { VisitsAreNoFaster }
{}

/// Nobody enters a link before the departure of the trip.
pub fn nobody_departs_early()
    ensures { NobodyIsEarly }
{}

/// A vehicle moves at most once in a step.
pub fn nobody_moves_twice_in_a_step()
    ensures { MovesOnceInAStep }
{}

/// A trip takes at least the free-flow time of its route, and so at least the least free-flow time
/// between its zones.
pub fn no_trip_is_faster_than_free_flow()
    ensures { TripsAreNoFaster }
{}

/// Where nothing binds each trip takes the free-flow time of its route: the free-flow steps of its
/// links and the penalties of its turns.
pub fn trips_take_free_flow_where_nothing_binds()
    ensures { TripsAreAtFreeFlow }
{}

/// Where nothing binds, and turns cost nothing, each link time is the free-flow time.
pub fn links_take_free_flow_where_nothing_binds()
    ensures { TimesAreFree }
{}

/// All this can be met: nothing binds in a sound loading of one vehicle on two links.
pub fn nothing_binds_on_wide_links()
    ensures sound { IsSound one_vehicle }
    ensures free { NothingBinds one_vehicle (λ l. 0) }
{}
