// Laws of the claims. Each is the contract of a function that does nothing.
ghost use Rattle.claim_core.specs.Laws.{Always, EarlierAreFinished, HeldWereGiven, IsHeldOnce};
ghost use Rattle.claim_core.specs.Laws.{LaterAreNot, NoPlaceIsShared, NumbersRise};
ghost use Rattle.claim_core.specs.Laws.{OpenAreOfThePhase, PartsAreOfWholeSteps, PlacesRise};

/// No unit is held by two workers at once.
pub fn units_are_held_once()
    ensures { Always IsHeldOnce }
{}

/// A unit that is held was given.
pub fn held_units_were_given()
    ensures { Always HeldWereGiven }
{}

/// The units before the phase in which the number of finished units stands are finished.
pub fn earlier_units_are_finished()
    ensures { Always EarlierAreFinished }
{}

/// No unit after that phase is.
pub fn later_units_are_not()
    ensures { Always LaterAreNot }
{}

/// A unit that is open is of that phase: no phase begins before the earlier ones are finished.
pub fn open_units_are_of_the_phase()
    ensures { Always OpenAreOfThePhase }
{}

/// Numbers are given from 0 on, one after another and each once.
pub fn numbers_rise()
    ensures { NumbersRise }
{}

/// Where exactly t whole steps are finished, all cells and mail are those of the plain loading
/// after t steps.
pub fn parts_are_of_whole_steps()
    ensures { Always PartsAreOfWholeSteps }
{}

/// Two units of one phase have no place in common: what one works on, no other of its phase does.
pub fn units_of_a_phase_share_no_place()
    ensures { NoPlaceIsShared }
{}

/// The places of a unit are in the order of their numbers, each once.
pub fn places_rise()
    ensures { PlacesRise }
{}
