// Laws of scenarios: the contracts of functions that do nothing.
ghost use Rattle.sweep.specs.Laws.{ScenariosStandAlone};

use route_flows::{iterations_are_determined, routes_are_determined};

/// A scale of the demand over a network has one scenario: its texts are the same whatever the
/// workers, the other scales and the command.
pub fn scenarios_stand_alone()
    ensures { ScenariosStandAlone }
{
    routes_are_determined();
    iterations_are_determined();
}
