// Laws of successive averages. Each is the contract of a function that does nothing.
ghost use Rattle.route_flows.specs.Laws.{ChosenAreDetermined, NextAreDetermined};
ghost use Rattle.route_flows.specs.Laws.{NoRowStartsNobody, SinceAreDetermined};
ghost use Rattle.route_flows.specs.Laws.{StartedAreDetermined};

/// There is one list of first routes, with and without a start table, and one list of next ones.
pub fn routes_are_determined()
    ensures chosen { ChosenAreDetermined }
    ensures started { StartedAreDetermined }
    ensures next { NextAreDetermined }
{}

/// There is one list of the iterations in which vehicles took their routes.
pub fn iterations_are_determined()
    ensures { SinceAreDetermined }
{}

/// A start table without rows gives the first routes.
pub fn no_row_starts_nobody()
    ensures { NoRowStartsNobody }
{}
