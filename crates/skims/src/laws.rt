// Laws of skims. Each is the contract of a function that does nothing.
ghost use Rattle.skims.specs.Laws.{SkimsAreDetermined};

/// A network, a table and starts have one skim.
pub fn skims_are_determined()
    ensures { SkimsAreDetermined }
{}
