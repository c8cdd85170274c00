// The law of a run's texts: the contract of a function that does nothing.
ghost use Rattle.commands.specs.Laws.{OneListOfTexts};

use audit::verdicts_are_determined;
use route_flows::{iterations_are_determined, routes_are_determined};
use sweep::scenarios_stand_alone;

/// Settings and a job have one list of texts but for Watch, and with the plain loader one list of
/// all texts; the nodes of a step may be taken in any order, another one in each step and loading;
/// a scenario of a sweep has the texts of the assignment over the demand times its scale; and an
/// audit of a job has one verdict.
pub fn texts_are_one()
    ensures { OneListOfTexts }
{
    routes_are_determined();
    iterations_are_determined();
    scenarios_stand_alone();
    verdicts_are_determined();
}
