// The outputs of an assignment, in their order.
ghost use Rattle.std.specs.Prelude.{[], ◌∷◌};
ghost use Rattle.desk_io.specs.declared.desk.Output.TheVariants as output;
ghost use Rattle.desk_io.specs.Transfers.{Puts};
ghost use Rattle.pending_text.specs.Outs.{PutsAll};
ghost use Rattle.dta_model.specs.Loading.{journeys_of};
ghost use Rattle.reports.specs.Texts.{agent_text_by};
ghost use Rattle.counts.specs.Through.{through_counts};
ghost use Rattle.counts.specs.Turns.{turn_counts};
ghost use Rattle.assignment.specs.Lent.{IsAssignment, plan_in, settings_in, traffic_in};
ghost use Rattle.assignment.specs.Progress.{IsLast};
ghost use Rattle.assignment.specs.Assignment.{waits_told};
ghost use Rattle.commands.specs.Outputs.{AreSinceTold};
ghost use Rattle.commands.specs.Counted.{AreCountsOf, HasCounts};
ghost use Rattle.commands.specs.Texts.{counts_out, last_texts, table_texts, told_of, wait_texts};

use crate::iterated::Iterated;
use assignment::{Assignment, summary_of};
use counts::put_counts;
use desk_io::{Desk, Failed};
use dta_words::Command;
use reports::{
    put_agents, put_agents_from, put_gaps, put_link_times, put_origin_waits, put_summary,
};

// Puts Agent, with the iterations of the routes where there is a start table.
#[tactic(auto, unfolding(reports::specs::Texts::agent_text_by))]
fn put_vehicles<D: Desk>(desk: &mut D, assignment: &Assignment, it: &Iterated) -> Result<(), Failed>
    requires is { IsAssignment assignment.now }
    requires last { IsLast (settings_in assignment.now) (traffic_in assignment.now) it.now.last }
    requires since { let s = settings_in assignment.now in
        AreSinceTold s.start s (traffic_in assignment.now) it.now.since }
    ensures { let traffic = traffic_in assignment.now in
        let journeys = journeys_of (plan_in assignment.now it.now.last.routes) in
        Puts output.Agent (agent_text_by traffic.net traffic.trips it.now.last.routes journeys
        it.now.since) (D.state desk.old) (D.state desk.new) result }
{
    let (net, trips) = (assignment.net, assignment.trips);
    let routes = &it.last.routes;
    let loaded = &it.last.loaded;
    match &it.since {
        Some(since) => put_agents_from(desk, net, trips, routes, loaded, since),
        None => put_agents(desk, net, trips, routes, loaded),
    }
}

// Puts OriginWait, where the costs are of whole trips.
#[tactic(auto, using(pending_text::proofs::OutFacts::parts))]
fn put_waits<D: Desk>(desk: &mut D, assignment: &Assignment, it: &Iterated) -> Result<(), Failed>
    requires is { IsAssignment assignment.now }
    requires last { IsLast (settings_in assignment.now) (traffic_in assignment.now) it.now.last }
    ensures { let traffic = traffic_in assignment.now in
        PutsAll (wait_texts traffic.net (waits_told (settings_in assignment.now) traffic
        it.now.last.routes)) (D.state desk.old) (D.state desk.new) result }
{
    match &it.last.waits {
        Some(waits) => put_origin_waits(desk, assignment.net, waits),
        None => Ok(()),
    }
}

// Puts Agent, LinkTime, OriginWait and Gap, one after the other.
#[tactic(auto, using(pending_text::proofs::OutFacts::parts))]
fn put_tables<D: Desk>(desk: &mut D, assignment: &Assignment, it: &Iterated) -> Result<(), Failed>
    requires is { IsAssignment assignment.now }
    requires last { IsLast (settings_in assignment.now) (traffic_in assignment.now) it.now.last }
    requires since { let s = settings_in assignment.now in
        AreSinceTold s.start s (traffic_in assignment.now) it.now.since }
    ensures { let traffic = traffic_in assignment.now in let last = it.now.last in
        let told = told_of (settings_in assignment.now) traffic last.routes last.line in
        PutsAll (table_texts traffic last.routes told it.now.since last.lines.items)
        (D.state desk.old) (D.state desk.new) result }
{
    put_vehicles(desk, assignment, it)?;
    put_link_times(desk, assignment.net, it.last.costs.times())?;
    put_waits(desk, assignment, it)?;
    put_gaps(desk, &it.last.lines)
}

// Puts Counts.
fn put_counted<D: Desk>(desk: &mut D, assignment: &Assignment, it: &Iterated) -> Result<(), Failed>
    requires is { IsAssignment assignment.now }
    requires counts { AreCountsOf (settings_in assignment.now) (traffic_in assignment.now)
        it.now.last.routes it.now.counts }
    ensures { let s = settings_in assignment.now in
        let loading = plan_in assignment.now it.now.last.routes in
        PutsAll (counts_out s (traffic_in assignment.now) (turn_counts loading s.bucket)
        (through_counts loading) ∷ []) (D.state desk.old) (D.state desk.new) result }
{
    let settings = assignment.settings;
    let counts = &it.counts;
    put_counts(
        desk,
        assignment.net,
        &counts.turns,
        &counts.through,
        settings.bucket,
        settings.horizon,
    )
}

/// Puts the texts after the last iteration: the tables of `assign` or the counts of `counts`, and
/// the report. It takes no memory.
#[tactic(auto, using(crate::proofs::OutputFacts::lasts))]
pub fn put_assigned<D: Desk>(
    desk: &mut D,
    assignment: &Assignment,
    it: &Iterated,
) -> Result<(), Failed>
    requires is { IsAssignment assignment.now }
    requires last { IsLast (settings_in assignment.now) (traffic_in assignment.now) it.now.last }
    requires since { let s = settings_in assignment.now in
        AreSinceTold s.start s (traffic_in assignment.now) it.now.since }
    requires counts { HasCounts (settings_in assignment.now) (traffic_in assignment.now)
        it.now.last.routes it.now.counts }
    ensures { let s = settings_in assignment.now in
        PutsAll (last_texts s.command s (traffic_in assignment.now) it.now.last.routes it.now.since
        it.now.last.lines.items it.now.last.line) (D.state desk.old) (D.state desk.new) result }
{
    let summary = summary_of(assignment, &it.last);
    match assignment.settings.command {
        Command::Assign => {
            put_tables(desk, assignment, it)?;
            put_summary(desk, &summary)
        }
        Command::Counts => {
            put_counted(desk, assignment, it)?;
            put_summary(desk, &summary)
        }
        Command::Freeflow | Command::Demo(_) | Command::Skim | Command::Sweep | Command::Audit =>
            put_summary(desk, &summary),
    }
}
