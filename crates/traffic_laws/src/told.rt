// What journeys tell.
ghost use Rattle.traffic_laws.specs.Told.{EntriesAreTold, LeavingsAreTold};

/// The journeys of all vehicles tell who enters a link in some steps.
pub fn journeys_tell_the_entries()
    ensures { EntriesAreTold }
{}

/// The journeys of all vehicles tell who leaves a link in some steps.
pub fn journeys_tell_the_leavings()
    ensures { LeavingsAreTold }
{}
