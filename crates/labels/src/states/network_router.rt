// The ways on from the links of a network.
ghost use Rattle.std.specs.Prelude.{◌≡◌, ◌++◌, ◌<◌, length, List, IfOk, OnOk};
ghost use Rattle.net_core.specs.Network.{IsNet};
ghost use Rattle.labels.specs.States.Onwards.{with_turn, ways_from, end_zone};
ghost use Rattle.labels.specs.Reading.Serves.{IsRouter};
ghost use Rattle.labels.specs.declared.states.onward.Onward.{Onward};

use crate::states::link_states::{States, end_of, states_of};
use crate::states::onward::Onward;
use crate::states::router::Router;
use crate::states::zone_numbers::or_none;
use net_core::{LinkNo, Memory, Net, Turn};
use std::alloc::Global;

// The number of the zone in which a link ends, or the one that stands for none.
fn zone_of_end(net: &Net, link: LinkNo) -> u32
    requires net { IsNet net.now }
    requires link { link.0 < length net.now.links }
    ensures { result ≡ end_zone net.now link.0 }
{
    or_none(net.zone_of(end_of(net, link)))
}

// Adds the way on by a turn, where it is allowed.
fn add_way(ways: &mut Vec<Onward>, turn: Option<Turn>, link: LinkNo, to: u32) -> Result<(), Memory>
    ensures { OnOk result ((others : List Onward)
        → ways.new.items ++ others ≡ ways.old.items ++ with_turn turn link.0 to others) }
{
    if let Some(turn) = turn {
        ways.push(Onward {
            wait: turn.penalty,
            link: link.0,
            to,
        })?;
    }
    Ok(())
}

// Adds the ways on from a link.
#[tactic(auto, using(crate::proofs::OfStates::OnwardFacts::outs_within))]
fn add_ways(ways: &mut Vec<Onward>, net: &Net, states: &[u32], link: LinkNo) -> Result<(), Memory>
    requires net { IsNet net.now }
    requires states { length states.now ≡ length net.now.links }
    requires link { link.0 < length net.now.links }
    ensures { OnOk result (ways.new.items ≡ ways.old.items ++ ways_from net.now states.now link.0) }
{
    for next in net.outs(end_of(net, link)) {
        add_way(ways, net.turn(link, *next), *next, states[next.0 as usize])?;
    }
    Ok(())
}

/// The ways on from the links of a network.
#[tactic(auto, using(crate::proofs::OfStates::RouterFacts::state_by_state))]
pub fn router_of(alloc: Global, net: &Net) -> Result<Router, Memory>
    ensures { IfOk result (λ r. IsRouter net.now r) }
{
    let States { of, leads } = states_of(alloc, net)?;
    let mut starts = Vec::new(alloc);
    let mut ways = Vec::new(alloc);
    let mut zones = Vec::new(alloc);
    starts.push(0usize)?;
    for lead in leads.as_slice() {
        add_ways(&mut ways, net, of.as_slice(), LinkNo(*lead))?;
        starts.push(ways.len())?;
        zones.push(zone_of_end(net, LinkNo(*lead)))?;
    }
    Ok(Router {
        states: of,
        starts,
        ways,
        zones,
    })
}
