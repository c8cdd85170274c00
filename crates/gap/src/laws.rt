// Laws of gaps. Each is the contract of a function that does nothing.
ghost use Rattle.gap.specs.Laws.{LinesAreDetermined};

/// Routes have one gap over a table.
pub fn gap_lines_are_determined()
    ensures { LinesAreDetermined }
{}
