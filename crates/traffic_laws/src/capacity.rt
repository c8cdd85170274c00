// Flow within capacity.
ghost use Rattle.traffic_laws.specs.Capacity.{EntriesAreWithin, LeavingsAreWithin, TurnsAreWithin};

/// No more vehicles enter a link than its rate lets through: in a step its allowance, and over any
/// steps less than rate times time plus one.
pub fn entries_stay_within_the_rate()
    ensures { EntriesAreWithin }
{}

/// No more vehicles leave a link than its rate lets through.
pub fn leavings_stay_within_the_rate()
    ensures { LeavingsAreWithin }
{}

/// No more vehicles take a turn, in the steps in which it has a limit, than the limit lets through.
pub fn turns_stay_within_the_limit()
    ensures { TurnsAreWithin }
{}
