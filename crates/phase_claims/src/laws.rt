// Laws of the running rule. Each is the contract of a function that does nothing.
ghost use Rattle.phase_claims.specs.Laws.{FloorsAreClaims, StatesAreShown, StepsAreEvents};

/// The words and the views of a floor are claims of the claim machine: no unit is held or
/// performed by two passes, no phase begins before the earlier ones are finished, and the writer's
/// pass has posted the states of the postings performed.
pub fn floors_are_claims()
    ensures { FloorsAreClaims }
{}

/// What the steps of a pass make of these claims is what the events of the claim machine make: a
/// claim of a chunk, an open and a finish by its worker.
pub fn steps_are_events()
    ensures { StepsAreEvents }
{}

/// What a monitor of a floor's board was shown is the state after some step, or before the first.
/// Its pass knows so once it is settled with the writer's pass that a close gives back.
pub fn states_are_shown()
    ensures { StatesAreShown }
{}
