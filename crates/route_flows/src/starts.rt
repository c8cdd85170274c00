// The walks by which the rows of a start table fit vehicles.
ghost use Rattle.std.specs.Prelude.{IfOk, true};
ghost use Rattle.time_routes.specs.Destinations.{AreTold};
ghost use Rattle.start_table.specs.Starts.{TellsStart};

use dta_model::{Route, Trip};
use net_core::{Memory, Net};
use start_table::{LinkIndex, StartRows};
use std::alloc::Global;

/// For each vehicle the walk of a row that fits it, or none where no row does.
pub(crate) fn start_walks(
    alloc: Global,
    net: &Net,
    trips: &[Trip],
    start: &StartRows,
) -> Result<Vec<Option<Route>>, Memory>
    ensures { IfOk result (λ walks.
        AreTold (TellsStart net.now start.now) (λ _. true) trips.now walks.items) }
{
    let index = LinkIndex::of(alloc, net)?;
    let mut walks = Vec::with_capacity(alloc, trips.len())?;
    for trip in trips {
        walks.push(index.walk_of(alloc, start, trip)?)?;
    }
    Ok(walks)
}
