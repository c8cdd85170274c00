// Laws of link times and of the numbers beside them. Each is the contract of a function that does
// nothing.
ghost use Rattle.traffic_laws.specs.Buckets.{EnteredAreCounted, EntriesComeFrom, LeavingsGoTo};
ghost use Rattle.traffic_laws.specs.Buckets.{TimesAreNotBelowFree};

/// No link time is below free flow.
pub fn link_times_are_not_below_free_flow()
    ensures { TimesAreNotBelowFree }
{}

/// The number entered in a bucket of a link is how many vehicles entered it in those steps.
pub fn entered_are_those_who_entered_then()
    ensures { EnteredAreCounted }
{}

/// The entries of a link, over all buckets, are the departures onto it and the turns into it.
pub fn entries_are_departures_and_turns()
    ensures { EntriesComeFrom }
{}

/// The leavings of a link are the turns out of it and the arrivals from it; with those who are on
/// it at the end they are its entries.
pub fn leavings_are_turns_and_arrivals()
    ensures { LeavingsGoTo }
{}
