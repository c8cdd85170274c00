// The numbers of a report.
ghost use Rattle.std.specs.Prelude.{◌≡◌};
ghost use Rattle.assignment.specs.Assignment.{summary_of as summary_of_routes};
ghost use Rattle.assignment.specs.Lent.{IsAssignment, settings_in, traffic_in};
ghost use Rattle.assignment.specs.Progress.{IsLast};

use crate::iterations::Assigned;
use crate::lent::Assignment;
use reports::Summary;
use route_flows::unrouted;

/// The numbers of the report of an assignment.
pub fn summary_of(assignment: &Assignment, assigned: &Assigned) -> Summary
    requires is { IsAssignment assignment.now }
    requires last { IsLast (settings_in assignment.now) (traffic_in assignment.now) assigned.now }
    ensures { result ≡ summary_of_routes (settings_in assignment.now) (traffic_in assignment.now)
        assigned.now.routes assigned.now.line }
{
    let eight = assigned.end;
    Summary {
        nodes: assignment.net.node_count(),
        links: assignment.net.link_count(),
        vehicles: assignment.trips.len() as u32,
        unrouted: unrouted(&assigned.routes),
        iterations: assignment.settings.iterations,
        arrived: eight.arrived as u32,
        running: eight.running as u32,
        waiting: eight.waiting as u32,
        gap: assigned.line,
    }
}
