// The rows of an agent table against the trips.
ghost use Rattle.std.specs.Prelude.{◌≡◌, ◌++◌, ◌∷◌, [], ◌+◌, ◌<◌, ◌^◌};
ghost use Rattle.std.specs.Prelude.{IfOk, Ok, option_copied};
ghost use Rattle.audit.specs.Audit.{all_trip_checks, missing_checks, number_checks, route_named};
ghost use Rattle.audit.specs.Audit.{routes_named, trip_checks};
ghost use Rattle.audit.specs.Checks.{IsVerdict};
ghost use Rattle.audit.specs.Inside.{TellsRoute};
ghost use Rattle.audit.specs.declared.verdict.Verdict.TheVariants.{No, Yes};
ghost use Rattle.desk_io.specs.declared.desk.Table.TheVariants.{Start};

use crate::verdict::Verdict;
use agent_table::AgentRow;
use desk_io::Table;
use dta_model::{Route, Trip};
use net_core::{Memory, Net};
use row_reader::Column;
use start_table::LinkIndex;
use std::alloc::Global;

// The verdict of a check of a row that fails.
fn fails(line: u64, column: Column) -> Verdict
    ensures { result ≡ No Start line column }
{
    Verdict::No {
        table: Table::Start,
        line,
        column,
    }
}

// The verdict of the number of a row, its zones and its departure.
fn number_verdict(r: usize, trip: &Trip, row: &AgentRow) -> Verdict
    requires { r < 2 ^ 63 }
    ensures { IsVerdict (number_checks r trip.now row.now) result }
{
    let line = r as u64 + 2;
    let departure = u64::from(trip.departure);
    Verdict::of(row.agent == r as u64, Table::Start, line, Column::AgentId)
        .then(Verdict::of(
            row.origin == trip.origin,
            Table::Start,
            line,
            Column::OZoneId,
        ))
        .then(Verdict::of(
            row.destination == trip.destination,
            Table::Start,
            line,
            Column::DZoneId,
        ))
        .then(Verdict::of(
            row.departure == departure,
            Table::Start,
            line,
            Column::DepartureStep,
        ))
}

// The route that identifiers name for a trip, none where there are none; or that they name no
// walk.
fn route_told(
    alloc: Global,
    index: &LinkIndex,
    trip: &Trip,
    ids: &[u64],
) -> Result<Option<Option<Route>>, Memory>
    ensures { IfOk result (TellsRoute index.now trip.now ids.now) }
{
    if ids.is_empty() {
        return Ok(Some(None));
    }
    match index.walk_named(alloc, trip.origin, trip.destination, ids)? {
        Some(walk) => Ok(Some(Some(walk))),
        None => Ok(None),
    }
}

// The verdict of a row. Where it is yes, its route is added.
fn check_row(
    alloc: Global,
    index: &LinkIndex,
    trip: Option<&Trip>,
    r: usize,
    row: &AgentRow,
    routes: &mut Vec<Option<Route>>,
) -> Result<Verdict, Memory>
    requires { r < 2 ^ 63 }
    ensures verdict { IfOk result (IsVerdict
        (trip_checks index.now r (option_copied trip.entry) row.now)) }
    ensures route { result ≡ Ok Yes
        → routes.new.items ≡ routes.old.items ++ route_named index.now row.now.links ∷ [] }
{
    let line = r as u64 + 2;
    let trip = match trip {
        Some(trip) => trip,
        None => return Ok(fails(line, Column::AgentId)),
    };
    let numbers = number_verdict(r, trip, row);
    match numbers {
        Verdict::Yes => {}
        Verdict::No { .. } => return Ok(numbers),
    }
    match route_told(alloc, index, trip, row.links.as_slice())? {
        Some(route) => {
            routes.push(route)?;
            Ok(Verdict::Yes)
        }
        None => Ok(fails(line, Column::LinkIds)),
    }
}

// The verdict of all rows. Where it is yes, their routes are put into a list that has none.
#[tactic(auto, unfolding(crate::specs::Audit::all_trip_checks))]
fn check_rows(
    alloc: Global,
    net: &Net,
    trips: &[Trip],
    agents: &[AgentRow],
    routes: &mut Vec<Option<Route>>,
) -> Result<Verdict, Memory>
    requires { routes.old.items ≡ [] }
    ensures verdict { IfOk result (IsVerdict (all_trip_checks net.now trips.now agents.now)) }
    ensures routes { result ≡ Ok Yes → routes.new.items ≡ routes_named net.now agents.now }
{
    let index = LinkIndex::of(alloc, net)?;
    for r in 0..agents.len() {
        let verdict = check_row(alloc, &index, trips.get(r), r, &agents[r], routes)?;
        match verdict {
            Verdict::Yes => {}
            Verdict::No { .. } => return Ok(verdict),
        }
    }
    Ok(Verdict::Yes)
}

// The verdict of the number of rows, where none is one too many.
fn number_of_rows(trips: &[Trip], agents: &[AgentRow]) -> Verdict
    ensures { IsVerdict (missing_checks trips.now agents.now) result }
{
    if agents.len() < trips.len() {
        return fails(agents.len() as u64 + 2, Column::NoColumn);
    }
    Verdict::Yes
}

/// The verdict of the rows of an agent table against the trips: of each row, and whether rows are
/// missing. Where it is yes, the routes that they name are put into a list that has none.
pub(crate) fn check_trips(
    alloc: Global,
    net: &Net,
    trips: &[Trip],
    agents: &[AgentRow],
    routes: &mut Vec<Option<Route>>,
) -> Result<Verdict, Memory>
    requires { routes.old.items ≡ [] }
    ensures verdict { IfOk result (IsVerdict
        (all_trip_checks net.now trips.now agents.now ++ missing_checks trips.now agents.now)) }
    ensures routes { result ≡ Ok Yes → routes.new.items ≡ routes_named net.now agents.now }
{
    let rows = check_rows(alloc, net, trips, agents, routes)?;
    Ok(rows.then(number_of_rows(trips, agents)))
}
