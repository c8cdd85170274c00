// The texts of an assignment, put in memory.
ghost use Rattle.std.specs.Prelude.{◌≡◌, IfOk, Ok, Some};
ghost use Rattle.desk_io.specs.Desk.{nothing_taken, taken_of};
ghost use Rattle.dta_model.specs.Loading.{journeys_of};
ghost use Rattle.reports.specs.Texts.{agent_text, gap_text, link_time_text, report_text};
ghost use Rattle.assignment.specs.Assignment.{summary_of as summary_of_routes};
ghost use Rattle.assignment.specs.Assignment.{times_of, waits_told};
ghost use Rattle.assignment.specs.Lent.{IsAssignment, plan_in, settings_in, traffic_in};
ghost use Rattle.assignment.specs.Progress.{IsAssigned};
ghost use Rattle.sweep.specs.Scenarios.{HasTexts};
ghost use Rattle.sweep.specs.Texts.{wait_text};

use crate::scenario::Scenario;
use assignment::{Assigned, Assignment, summary_of};
use desk_io::{Failed, MemDesk, Output, Text};
use net_core::Memory;
use reports::{put_agents, put_gaps, put_link_times, put_origin_waits, put_summary};
use std::alloc::{AllocError, Global};

// A desk that has taken nothing.
fn empty_desk(alloc: Global) -> MemDesk
    ensures { result.taken ≡ nothing_taken }
{
    MemDesk::new(
        alloc,
        Vec::new(alloc),
        Vec::new(alloc),
        Vec::new(alloc),
        Vec::new(alloc),
    )
}

// What a desk in memory has taken by a put. It fails only where memory is wanting.
fn taken_by(
    alloc: Global,
    put: Result<(), Failed>,
    desk: MemDesk,
    output: Output,
) -> Result<Text, Memory>
    ensures put { IfOk result (λ text. put ≡ Ok tt) }
    ensures taken { IfOk result (λ text. taken_of output desk.taken ≡ Some text) }
{
    match put {
        Ok(()) => Ok(Text::of(desk.into_taken(alloc, output))),
        Err(_) => Err(AllocError),
    }
}

// The text of the vehicles.
fn agent(alloc: Global, assignment: &Assignment, assigned: &Assigned) -> Result<Text, Memory>
    requires is { IsAssignment assignment.now }
    requires assigned { IsAssigned (settings_in assignment.now) (traffic_in assignment.now)
        assigned.now }
    ensures { let traffic = traffic_in assignment.now in
        let plan = plan_in assignment.now assigned.now.routes in
        IfOk result (λ text.
        text ≡ agent_text traffic.net traffic.trips assigned.now.routes (journeys_of plan)) }
{
    let mut desk = empty_desk(alloc);
    let (net, trips) = (assignment.net, assignment.trips);
    let put = put_agents(&mut desk, net, trips, &assigned.routes, &assigned.loaded);
    taken_by(alloc, put, desk, Output::Agent)
}

// The text of the link times.
fn link_time(alloc: Global, assignment: &Assignment, assigned: &Assigned) -> Result<Text, Memory>
    requires assigned { IsAssigned (settings_in assignment.now) (traffic_in assignment.now)
        assigned.now }
    ensures { let traffic = traffic_in assignment.now in
        let times = times_of (settings_in assignment.now) traffic assigned.now.routes in
        IfOk result (λ text. text ≡ link_time_text traffic.net times) }
{
    let mut desk = empty_desk(alloc);
    let put = put_link_times(&mut desk, assignment.net, assigned.costs.times());
    taken_by(alloc, put, desk, Output::LinkTime)
}

// The text of the waits at origins, which is empty where none are told.
fn origin_wait(alloc: Global, assignment: &Assignment, assigned: &Assigned) -> Result<Text, Memory>
    requires assigned { IsAssigned (settings_in assignment.now) (traffic_in assignment.now)
        assigned.now }
    ensures { let traffic = traffic_in assignment.now in
        let waits = waits_told (settings_in assignment.now) traffic assigned.now.routes in
        IfOk result (λ text. text ≡ wait_text traffic.net waits) }
{
    match &assigned.waits {
        None => Ok(Text::of(Vec::new(alloc))),
        Some(waits) => {
            let mut desk = empty_desk(alloc);
            let put = put_origin_waits(&mut desk, assignment.net, waits);
            taken_by(alloc, put, desk, Output::OriginWait)
        }
    }
}

// The text of the gaps.
fn gap(alloc: Global, assigned: &Assigned) -> Result<Text, Memory>
    ensures { IfOk result (λ text. text ≡ gap_text assigned.now.lines.items) }
{
    let mut desk = empty_desk(alloc);
    let put = put_gaps(&mut desk, &assigned.lines);
    taken_by(alloc, put, desk, Output::Gap)
}

// The text of the report.
fn report(alloc: Global, assignment: &Assignment, assigned: &Assigned) -> Result<Text, Memory>
    requires is { IsAssignment assignment.now }
    requires assigned { IsAssigned (settings_in assignment.now) (traffic_in assignment.now)
        assigned.now }
    ensures { let summary = summary_of_routes (settings_in assignment.now)
        (traffic_in assignment.now) assigned.now.routes assigned.now.line in
        IfOk result (λ text. text ≡ report_text summary) }
{
    let mut desk = empty_desk(alloc);
    let put = put_summary(&mut desk, &summary_of(assignment, assigned));
    taken_by(alloc, put, desk, Output::Report)
}

/// The scenario of a scale, whose assignment this is.
pub(crate) fn scenario_of(
    alloc: Global,
    assignment: &Assignment,
    assigned: &Assigned,
    scale: u64,
) -> Result<Scenario, Memory>
    requires is { IsAssignment assignment.now }
    requires assigned { IsAssigned (settings_in assignment.now) (traffic_in assignment.now)
        assigned.now }
    ensures scale { IfOk result (λ it. it.scale ≡ scale) }
    ensures texts { IfOk result
        (HasTexts (settings_in assignment.now) (traffic_in assignment.now)) }
{
    Ok(Scenario {
        scale,
        agent: agent(alloc, assignment, assigned)?,
        link_time: link_time(alloc, assignment, assigned)?,
        origin_wait: origin_wait(alloc, assignment, assigned)?,
        gap: gap(alloc, assigned)?,
        report: report(alloc, assignment, assigned)?,
    })
}
