// Laws of the definitions. Each is the contract of a function that does nothing.
ghost use Rattle.trip_costs.specs.Laws.{EntriesAndExitsAreBounded, EntriesNeverFall};
ghost use Rattle.trip_costs.specs.Laws.{ExitsNeverFall, FreeFlowPastTheHorizon};
ghost use Rattle.trip_costs.specs.Laws.{LaterNeverArrivesEarlier, LinksAreTheTable, NoLinkTwice};
ghost use Rattle.trip_costs.specs.Laws.{TimesAgree};

/// Who departs later for a first link never enters it earlier.
pub fn entries_never_fall()
    ensures { EntriesNeverFall }
{}

/// Who enters a link later never leaves it earlier.
pub fn exits_never_fall()
    ensures { ExitsNeverFall }
{}

/// From the horizon on nobody waits, and each link takes its free-flow steps.
pub fn free_flow_past_the_horizon()
    ensures { FreeFlowPastTheHorizon }
{}

/// Nobody enters before the departure, or after a wait past the horizon. A link that takes time
/// does so by trips too, and keeps nobody past the horizon, unless its free-flow steps do.
pub fn entries_and_exits_are_bounded()
    ensures { EntriesAndExitsAreBounded }
{}

/// Who starts later on the same route never arrives earlier.
pub fn later_never_arrives_earlier()
    ensures { LaterNeverArrivesEarlier }
{}

/// No walk that is chosen by costs of trips has a link twice.
pub fn no_chosen_trip_has_a_link_twice()
    ensures { NoLinkTwice }
{}

/// By costs of links a walk takes its time in the table of link times.
pub fn links_are_the_table()
    ensures { LinksAreTheTable }
{}

/// Where nobody waits at an origin and no link time falls by more than a step, each walk takes the
/// same time by trips as by links.
pub fn times_agree_where_nothing_falls()
    ensures { TimesAgree }
{}
