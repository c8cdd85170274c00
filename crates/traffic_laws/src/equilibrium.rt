// Laws of the gap. Each is the contract of a function that does nothing.
ghost use Rattle.traffic_laws.specs.Equilibrium.{GapIsNeverNegative, GapsAreOfTheirLoadings};
ghost use Rattle.traffic_laws.specs.Equilibrium.{NoGapIsEquilibrium};

/// The gap is never negative, by the costs that it is taken in (link times, or whole trips):
/// routes take no less than the least times, one by one and in all.
pub fn the_gap_is_never_negative()
    ensures { GapIsNeverNegative }
{}

/// The gap is 0 exactly in a user equilibrium, by Wardrop's first principle: no vehicle that has a
/// route would take less time on another walk, by the costs that the gap is taken in: link times,
/// or whole trips.
pub fn no_gap_means_user_equilibrium()
    ensures { NoGapIsEquilibrium }
{}

/// The gap that an assignment tells of an iteration is taken in the link times of that iteration's
/// own loading: it is never negative, and 0 exactly in a user equilibrium over them.
pub fn gaps_are_of_their_own_loadings()
    ensures { GapsAreOfTheirLoadings }
{}
