// The counts over the last iteration's loading.
ghost use Rattle.std.specs.Prelude.{◌≡◌, ◌<◌, ◌==◌, length, IfOk, IfSome};
ghost use Rattle.std.specs.List.{position};
ghost use Rattle.dta_model.specs.Lent.{plan_of as loading_plan};
ghost use Rattle.dta_model.specs.Loading.{journeys_of};
ghost use Rattle.dta_model.specs.Sound.{IsSound};
ghost use Rattle.counts.specs.Through.{through_counts};
ghost use Rattle.assignment.specs.Lent.{IsAssignment, settings_in, traffic_in};
ghost use Rattle.assignment.specs.Progress.{IsLast};
ghost use Rattle.commands.specs.Counted.{AreCountsOf, HasCounts};
ghost use Rattle.commands.specs.Texts.{asked_link as asked_link_of, through_asked};

use assignment::{Assigned, Assignment};
use counts::{ThroughCounts, TurnCounts, count_through, count_turns};
use desk_io::Memory;
use dta_model::{Loaded, Loading};
use dta_words::Command;
use net_core::{LinkNo, Net};
use std::alloc::Global;

/// The counts of turns over a loading, and the through counts of the link that is asked for.
#[derive(Drop)]
pub struct Counted {
    /// The counts of turns.
    pub turns: TurnCounts,
    /// The through counts of the link that is asked for.
    pub through: ThroughCounts,
}

// The place of the link with this identifier.
fn place_of(net: &Net, id: u64) -> Option<usize>
    ensures place { result ≡ position (λ link. link.id == id) net.now.links }
    ensures there { IfSome result (λ place. place < length net.now.links) }
{
    net.links().iter().position(|link| link.id == id)
}

// The link with this identifier, if one is asked for and the network has it.
fn asked_link(net: &Net, link: Option<u64>) -> Option<LinkNo>
    ensures link { result ≡ asked_link_of net.now link }
    ensures there { IfSome result (λ link. link.0 < length net.now.links) }
{
    let _few = net.link_count();
    let id = link?;
    let place = place_of(net, id)?;
    Some(LinkNo(place as u32))
}

// The through counts of a link; without a link there are none.
fn through(
    alloc: Global,
    loading: &Loading,
    loaded: &Loaded,
    link: Option<LinkNo>,
) -> Result<ThroughCounts, Memory>
    requires sound { IsSound (loading_plan loading.now) }
    requires loaded { loaded.now ≡ journeys_of (loading_plan loading.now) }
    requires link { IfSome link (λ link. link.0 < length loading.now.net.now.links) }
    ensures { IfOk result (λ counts. counts
        ≡ through_asked (through_counts (loading_plan loading.now)) link) }
{
    match link {
        Some(link) => count_through(alloc, loading, loaded, link),
        None => Ok(ThroughCounts::of(Vec::new(alloc))),
    }
}

// Counts over the loading of an iteration.
fn count(alloc: Global, assignment: &Assignment, last: &Assigned) -> Result<Counted, Memory>
    requires is { IsAssignment assignment.now }
    requires last { IsLast (settings_in assignment.now) (traffic_in assignment.now) last.now }
    ensures { IfOk result (AreCountsOf (settings_in assignment.now) (traffic_in assignment.now)
        last.now.routes) }
{
    let settings = assignment.settings;
    let loading = assignment.loading(&last.routes);
    let turns = count_turns(alloc, &loading, &last.loaded, settings.bucket)?;
    let link = asked_link(assignment.net, settings.link);
    let through = through(alloc, &loading, &last.loaded, link)?;
    Ok(Counted { turns, through })
}

/// Counts over the last iteration's loading, where the command asks for counts; otherwise there
/// are none.
pub fn counts_over(
    alloc: Global,
    assignment: &Assignment,
    last: &Assigned,
) -> Result<Counted, Memory>
    requires is { IsAssignment assignment.now }
    requires last { IsLast (settings_in assignment.now) (traffic_in assignment.now) last.now }
    ensures { IfOk result (HasCounts (settings_in assignment.now) (traffic_in assignment.now)
        last.now.routes) }
{
    match assignment.settings.command {
        Command::Counts => count(alloc, assignment, last),
        _ => Ok(Counted {
            turns: TurnCounts::of(Vec::new(alloc)),
            through: ThroughCounts::of(Vec::new(alloc)),
        }),
    }
}
