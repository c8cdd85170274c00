// The text of the vehicles.
ghost use Rattle.std.specs.Prelude.{◌≡◌, ◌≤◌, ◌+◌, ◌++◌, IfSome, length, OnOk, OnErr};
ghost use Rattle.std.specs.Prelude.{option_copied};
ghost use Rattle.desk_io.specs.declared.desk.Output.TheVariants as output;
ghost use Rattle.desk_io.specs.Transfers.{Puts};
ghost use Rattle.pending_text.specs.declared.pending.TheConstants.{DIGITS, PIECE};
ghost use Rattle.pending_text.specs.Sending.{Adds};
ghost use Rattle.reports.specs.Texts.{agent_columns, agent_header_by, agent_line, agent_text};
ghost use Rattle.reports.specs.Texts.{agent_text_by, agent_text_from, AreLinksOf, AreOnNet};
ghost use Rattle.reports.specs.Texts.{ids_of, item, iteration_told, joined, line_end};
ghost use Rattle.reports.specs.Texts.{number_or_nothing, trip_columns, way_columns};

use crate::status::{AgentStatus, status_of};
use desk_io::{Desk, Failed, Output};
use dta_model::{Journey, Loaded, MOST_TRIPS, Route, Routes, Steps, Trip};
use net_core::{LinkNo, Net};
use pending_text::Pending;

/// No first six columns are longer: five numbers of at most 20 digits, a status of at most 8
/// letters and six commas.
const COLUMNS: usize = 128;

/// No item of a list is longer: a semicolon and a number.
const ITEM: usize = 24;

/// No end of a line is longer: a comma, a number and a line feed.
const END: usize = 24;

// A vehicle's trip, its route if it has one, its journey, and the iteration of its route, where
// that is told.
#[derive(Clone, Copy, Drop)]
struct Agent<'a> {
    trip: &'a Trip,
    route: Option<&'a Route>,
    journey: &'a Journey,
    iteration: Option<u32>,
}

// The header of Agent, with the column of iterations where they are told.
#[tactic(auto, unfolding(crate::specs::Texts::agent_header, crate::specs::Texts::since_header))]
fn header(since: Option<&Steps>) -> Pending
    ensures { result ≡ agent_header_by (option_copied since.entry) }
{
    let mut pending = Pending::new();
    pending.push(
        "agent_id,o_zone_id,d_zone_id,departure_step,arrival_step,status,link_ids,entry_steps",
    );
    match since {
        None => pending.push("\n"),
        Some(_) => pending.push(",route_iteration\n"),
    }
    pending
}

// Adds a step to what is pending, and nothing where there is none.
fn push_step(pending: &mut Pending, step: Option<u32>)
    requires { length pending.old + DIGITS ≤ PIECE }
    ensures text { pending.new ≡ pending.old ++ number_or_nothing step }
    ensures few { length pending.new ≤ length pending.old + DIGITS }
{
    if let Some(number) = step {
        pending.push_number(u64::from(number));
    }
}

// Adds the first six columns of a vehicle to what is pending.
#[tactic(auto, using(crate::proofs::Sent::text), unfolding(crate::specs::Texts::trip_columns))]
fn push_trip(pending: &mut Pending, trip: &Trip, arrival: Option<u32>, status: AgentStatus)
    requires { length pending.old + COLUMNS ≤ PIECE }
    ensures { pending.new ≡ pending.old ++ trip_columns trip.now arrival status }
{
    pending.push_number(u64::from(trip.number));
    pending.push(",");
    pending.push_number(trip.origin);
    pending.push(",");
    pending.push_number(trip.destination);
    pending.push(",");
    pending.push_number(u64::from(trip.departure));
    pending.push(",");
    push_step(pending, arrival);
    pending.push(",");
    pending.push(status.name());
    pending.push(",");
}

// Adds the first six columns of a vehicle.
#[tactic(auto, using(crate::proofs::Sent::pieces))]
fn add_trip<D: Desk>(
    pending: &mut Pending,
    desk: &mut D,
    trip: &Trip,
    arrival: Option<u32>,
    status: AgentStatus,
) -> Result<(), Failed>
    ensures { Adds output.Agent (trip_columns trip.now arrival status) pending.old pending.new
        (D.state desk.old) (D.state desk.new) result }
{
    pending.make_room(desk, Output::Agent, COLUMNS)?;
    push_trip(pending, trip, arrival, status);
    Ok(())
}

// Adds an item of a list.
#[tactic(auto, using(crate::proofs::Sent::text, crate::proofs::Sent::pieces))]
fn add_item<D: Desk>(
    pending: &mut Pending,
    desk: &mut D,
    place: usize,
    number: u64,
) -> Result<(), Failed>
    ensures { Adds output.Agent (item place number) pending.old pending.new
        (D.state desk.old) (D.state desk.new) result }
{
    pending.make_room(desk, Output::Agent, ITEM)?;
    if place > 0 {
        pending.push(";");
    }
    pending.push_number(number);
    Ok(())
}

// Adds the identifiers of the links of a route, joined.
#[tactic(auto, using(crate::proofs::Sent::starts))]
fn add_ids<D: Desk>(
    pending: &mut Pending,
    desk: &mut D,
    net: &Net,
    route: &[LinkNo],
) -> Result<(), Failed>
    requires { AreLinksOf net.now route.now }
    ensures { Adds output.Agent (joined (ids_of net.now route.now)) pending.old pending.new
        (D.state desk.old) (D.state desk.new) result }
{
    'each: for place in 0..route.len() {
        let row = net.link(route[place]);
        add_item(pending, desk, place, row.id)?;
    }
    Ok(())
}

// Adds steps, joined.
#[tactic(auto, using(crate::proofs::Sent::starts))]
fn add_steps<D: Desk>(pending: &mut Pending, desk: &mut D, steps: &[u32]) -> Result<(), Failed>
    ensures { Adds output.Agent (joined steps.now) pending.old pending.new
        (D.state desk.old) (D.state desk.new) result }
{
    'each: for place in 0..steps.len() {
        add_item(pending, desk, place, u64::from(steps[place]))?;
    }
    Ok(())
}

// Adds the two columns of a vehicle's route and entries.
#[tactic(auto, unfolding(crate::specs::Texts::way_columns))]
fn add_way<D: Desk>(
    pending: &mut Pending,
    desk: &mut D,
    net: &Net,
    route: &[LinkNo],
    steps: &[u32],
) -> Result<(), Failed>
    requires { AreLinksOf net.now route.now }
    ensures { Adds output.Agent (way_columns (ids_of net.now route.now) steps.now)
        pending.old pending.new (D.state desk.old) (D.state desk.new) result }
{
    add_ids(pending, desk, net, route)?;
    pending.add(desk, Output::Agent, ",")?;
    add_steps(pending, desk, steps)
}

// Adds the columns of a vehicle.
#[tactic(auto, unfolding(crate::specs::Texts::agent_columns))]
fn add_columns<D: Desk>(
    pending: &mut Pending,
    desk: &mut D,
    net: &Net,
    agent: &Agent,
) -> Result<(), Failed>
    requires { IfSome (option_copied agent.now.route) (AreLinksOf net.now) }
    ensures { Adds output.Agent (agent_columns net.now agent.now.trip.now
        (option_copied agent.now.route) agent.now.journey.now)
        pending.old pending.new (D.state desk.old) (D.state desk.new) result }
{
    let journey = agent.journey;
    match agent.route {
        None => {
            add_trip(pending, desk, agent.trip, None, AgentStatus::Unrouted)?;
            add_way(pending, desk, net, &[], &[])
        }
        Some(route) => {
            add_trip(
                pending,
                desk,
                agent.trip,
                journey.arrival,
                status_of(journey),
            )?;
            add_way(
                pending,
                desk,
                net,
                route.as_slice(),
                journey.entries.as_slice(),
            )
        }
    }
}

// Adds the end of the line of a vehicle.
#[tactic(auto, using(crate::proofs::Sent::text, crate::proofs::Sent::pieces))]
fn add_end<D: Desk>(
    pending: &mut Pending,
    desk: &mut D,
    route: Option<&Route>,
    iteration: Option<u32>,
) -> Result<(), Failed>
    ensures { Adds output.Agent (line_end (option_copied route.entry) iteration)
        pending.old pending.new (D.state desk.old) (D.state desk.new) result }
{
    pending.make_room(desk, Output::Agent, END)?;
    if let Some(number) = iteration {
        pending.push(",");
        if route.is_some() {
            pending.push_number(u64::from(number));
        }
    }
    pending.push("\n");
    Ok(())
}

// Adds the line of a vehicle.
#[tactic(auto, unfolding(crate::specs::Texts::agent_line))]
fn add_agent<D: Desk>(
    pending: &mut Pending,
    desk: &mut D,
    net: &Net,
    agent: &Agent,
) -> Result<(), Failed>
    requires { IfSome (option_copied agent.now.route) (AreLinksOf net.now) }
    ensures { Adds output.Agent (agent_line net.now agent.now.trip.now
        (option_copied agent.now.route) agent.now.journey.now agent.now.iteration)
        pending.old pending.new (D.state desk.old) (D.state desk.new) result }
{
    add_columns(pending, desk, net, agent)?;
    add_end(pending, desk, agent.route, agent.iteration)
}

// The iteration of a vehicle's route, where iterations are told.
fn iteration_of(since: Option<&Steps>, v: u32) -> Option<u32>
    ensures { result ≡ iteration_told (option_copied since.entry) v }
{
    match since {
        None => None,
        Some(steps) => steps.as_slice().get(v as usize).copied(),
    }
}

// Puts Agent, with the iterations of the routes where they are given.
#[tactic(auto, using(crate::proofs::Sent::starts))]
fn put_lines<D: Desk>(
    desk: &mut D,
    net: &Net,
    trips: &[Trip],
    routes: &Routes,
    loaded: &Loaded,
    since: Option<&Steps>,
) -> Result<(), Failed>
    requires few { length trips.now ≤ MOST_TRIPS }
    requires routes { length routes.now ≡ length trips.now }
    requires journeys { length loaded.now ≡ length trips.now }
    requires on_net { AreOnNet net.now routes.now }
    requires numbers { IfSome (option_copied since) (λ told. length told ≡ length trips.now) }
    ensures { Puts output.Agent
        (agent_text_by net.now trips.now routes.now loaded.now (option_copied since.entry))
        (D.state desk.old) (D.state desk.new) result }
{
    let mut pending = header(since);
    'each: for v in 0..trips.len() as u32 {
        let agent = Agent {
            trip: &trips[v as usize],
            route: routes.get(v),
            journey: loaded.get(v),
            iteration: iteration_of(since, v),
        };
        add_agent(&mut pending, desk, net, &agent)?;
    }
    pending.put_out(desk, Output::Agent)
}

/// Puts Agent: a line for each vehicle, by its trip, its route if it has one, and its journey.
/// Zones and links stand by their identifiers. On Failed a first part of it went out. It takes no
/// memory.
#[tactic(auto, unfolding(crate::specs::Texts::agent_text_by))]
pub fn put_agents<D: Desk>(
    desk: &mut D,
    net: &Net,
    trips: &[Trip],
    routes: &Routes,
    loaded: &Loaded,
) -> Result<(), Failed>
    requires few { length trips.now ≤ MOST_TRIPS }
    requires routes { length routes.now ≡ length trips.now }
    requires journeys { length loaded.now ≡ length trips.now }
    requires on_net { AreOnNet net.now routes.now }
    ensures { Puts output.Agent (agent_text net.now trips.now routes.now loaded.now)
        (D.state desk.old) (D.state desk.new) result }
{
    put_lines(desk, net, trips, routes, loaded, None)
}

/// Puts Agent with one more column, the iteration of each vehicle's route: a number for each
/// vehicle, which is left out where the vehicle has no route. On Failed a first part of it went
/// out. It takes no memory.
#[tactic(auto, unfolding(crate::specs::Texts::agent_text_by))]
pub fn put_agents_from<D: Desk>(
    desk: &mut D,
    net: &Net,
    trips: &[Trip],
    routes: &Routes,
    loaded: &Loaded,
    since: &Steps,
) -> Result<(), Failed>
    requires few { length trips.now ≤ MOST_TRIPS }
    requires routes { length routes.now ≡ length trips.now }
    requires journeys { length loaded.now ≡ length trips.now }
    requires on_net { AreOnNet net.now routes.now }
    requires numbers { length since.now ≡ length trips.now }
    ensures { Puts output.Agent (agent_text_from net.now trips.now routes.now loaded.now since.now)
        (D.state desk.old) (D.state desk.new) result }
{
    put_lines(desk, net, trips, routes, loaded, Some(since))
}
