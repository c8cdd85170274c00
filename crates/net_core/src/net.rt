// A road network over the rows of its tables.
ghost use Rattle.std.specs.Prelude.{◌≡◌, ◌<◌, ◌≤◌, ◌≢◌, ◌↔◌, length, slice_get, None, Some, All};
ghost use Rattle.std.specs.Prelude.{IfOk, IfSome, IsSome, find, get_or, []};
ghost use Rattle.net_core.specs.ByNode.{is_from_to};
ghost use Rattle.net_core.specs.Network.{IsNet, as_links, as_zone, as_turn, link_at, zone_id};
ghost use Rattle.net_core.specs.Network.{zones, ins as ins_at, outs as outs_at};
ghost use Rattle.net_core.specs.Network.{zone_number as zone_numbered, zone_of as zone_at};
ghost use Rattle.net_core.specs.Network.{turn as turn_between, turn_at as turn_found};
ghost use Rattle.net_core.specs.Network.{is_named as is_named_at};
ghost use Rattle.net_core.specs.Network.{link_windows as windows_of_link};
ghost use Rattle.net_core.specs.Network.{turn_windows as windows_of_turn};
ghost use Rattle.net_core.specs.Network.{link_rates as rates_of_link, turn_rates as rates_of_turn};
ghost use Rattle.net_core.specs.Network.{limit_of};
ghost use Rattle.net_core.specs.Rates.{AreRates, rate_in};
ghost use Rattle.net_core.specs.Turns.{IsAllowed};

use crate::by_node::{link_lists, named_nodes, pairs_of, row};
use crate::ids::{Ids, Pairs};
use crate::lists::ListsByNumber;
use crate::rates::{Rates, Window, Windows, copy_of, rate_at};
use crate::rows::{LinkNo, LinkRow, NodeNo, NodeRow, Turn, TurnRow, ZoneNo};
use crate::zones::zones_of;
use std::alloc::{AllocError, Global};
use std::marker::Model;

// A turn without penalty and limit.
const FREE: Turn = Turn {
    penalty: 0,
    rate: None,
};

/// What a call that takes memory answers where there isn't enough.
pub type Memory = AllocError;

/// A road network: nodes, links and listed turns, as GMNS tables name them.
#[derive(Drop)]
pub struct Net {
    nodes: Vec<NodeRow>,
    links: Vec<LinkRow>,
    turns: Vec<TurnRow>,
    ins: ListsByNumber<LinkNo>,
    outs: ListsByNumber<LinkNo>,
    link_windows: Vec<Windows>,
    turn_windows: Vec<Windows>,
    named: Vec<bool>,
    pairs: Pairs,
    zones: Ids,
}

impl Model for Net {
    ghost use Rattle.net_core.specs.NetInside.{rows_of, IsIndexed};
    ghost use Rattle.net_core.specs.declared.rows.NetRows.{NetRows};

    ghost Value = { NetRows };

    ghost view = { rows_of };

    ghost invariant = { IsIndexed };
}

impl Net {
    /// The network with these rows, each link and each listed turn with the same rate in all
    /// steps. Zones are numbered in the order of their first appearance.
    pub fn of(
        alloc: Global,
        nodes: Vec<NodeRow>,
        links: Vec<LinkRow>,
        turns: Vec<TurnRow>,
    ) -> Result<Self, Memory>
        requires { IsNet (record {
          nodes = nodes.items;
          links = links.items;
          turns = turns.items;
          link_windows = [];
          turn_windows = [];
        }) }
        ensures { IfOk result (λ net.
            net ≡ record {
              nodes = nodes.items;
              links = links.items;
              turns = turns.items;
              link_windows = [];
              turn_windows = [];
            }) }
    {
        Net::with_windows(alloc, nodes, links, turns, Vec::new(alloc), Vec::new(alloc))
    }

    /// The network with these rows, and with the windows of each link and of each listed turn, in
    /// the order of the rows. A row without an entry has no windows.
    pub fn with_windows(
        alloc: Global,
        nodes: Vec<NodeRow>,
        links: Vec<LinkRow>,
        turns: Vec<TurnRow>,
        link_windows: Vec<Windows>,
        turn_windows: Vec<Windows>,
    ) -> Result<Self, Memory>
        requires { IsNet (record {
          nodes = nodes.items;
          links = links.items;
          turns = turns.items;
          link_windows = link_windows.items;
          turn_windows = turn_windows.items;
        }) }
        ensures { IfOk result (λ net.
            net ≡ record {
              nodes = nodes.items;
              links = links.items;
              turns = turns.items;
              link_windows = link_windows.items;
              turn_windows = turn_windows.items;
            }) }
    {
        let lists = link_lists(alloc, &nodes, &links)?;
        let named = named_nodes(alloc, &nodes, &links, &turns)?;
        let pairs = pairs_of(alloc, &turns)?;
        let zones = zones_of(alloc, &nodes)?;
        Ok(Net {
            nodes,
            links,
            turns,
            ins: lists.ins,
            outs: lists.outs,
            link_windows,
            turn_windows,
            named,
            pairs,
            zones,
        })
    }

    /// The number of nodes.
    pub fn node_count(&self) -> u32
        ensures count { result ≡ length self.now.nodes }
        ensures sound { IsNet self.now }
    {
        self.nodes.len() as u32
    }

    /// The number of links.
    pub fn link_count(&self) -> u32
        ensures count { result ≡ length self.now.links }
        ensures sound { IsNet self.now }
    {
        self.links.len() as u32
    }

    /// The number of zones.
    pub fn zone_count(&self) -> u32
        ensures count { result ≡ length (zones self.now.nodes) }
        ensures few { result ≤ length self.now.nodes }
    {
        self.zones.len() as u32
    }

    /// The row of a node.
    pub fn node(&self, node: NodeNo) -> NodeRow
        requires { node.0 < length self.now.nodes }
        ensures { slice_get self.now.nodes node.0 ≡ Some result }
    {
        self.nodes[node.0 as usize]
    }

    /// The row of a link.
    pub fn link(&self, link: LinkNo) -> LinkRow
        requires { link.0 < length self.now.links }
        ensures { slice_get self.now.links link.0 ≡ Some result }
    {
        self.links[link.0 as usize]
    }

    /// The rows of all links, in the order of their table.
    pub fn links(&self) -> &[LinkRow]
        ensures { result.now ≡ self.now.links }
    {
        &self.links
    }

    /// The links into a node, in the order of their table.
    pub fn ins(&self, node: NodeNo) -> &[LinkNo]
        requires { node.0 < length self.now.nodes }
        ensures { result.now ≡ as_links (ins_at self.now node.0) }
    {
        self.ins.get(node.0 as usize)
    }

    /// The links out of a node, in the order of their table.
    pub fn outs(&self, node: NodeNo) -> &[LinkNo]
        requires { node.0 < length self.now.nodes }
        ensures { result.now ≡ as_links (outs_at self.now node.0) }
    {
        self.outs.get(node.0 as usize)
    }

    /// The number of a zone, by its identifier.
    pub fn zone_number(&self, id: u64) -> Option<ZoneNo>
        ensures number { result ≡ as_zone (zone_numbered self.now id) }
        ensures none { (result ≡ None) ↔ All (λ node. node.zone ≢ Some id) self.now.nodes }
        ensures within { IfSome result (λ zone. zone.0 < length (zones self.now.nodes)) }
    {
        match self.zones.place(id) {
            Some(place) => Some(ZoneNo(place as u32)),
            None => None,
        }
    }

    /// The number of a node's zone, where it has one.
    pub fn zone_of(&self, node: NodeNo) -> Option<ZoneNo>
        requires { node.0 < length self.now.nodes }
        ensures number { result ≡ as_zone (zone_at self.now node.0) }
        ensures none { (result ≡ None) ↔ (zone_id self.now node.0 ≡ None) }
        ensures within { IfSome result (λ zone. zone.0 < length (zones self.now.nodes)) }
    {
        match self.nodes[node.0 as usize].zone {
            Some(zone) => self.zone_number(zone),
            None => None,
        }
    }

    /// The turn from a link to another, where it is allowed: the first link ends where the second
    /// begins, and where some turn is listed at that node, this one is listed. At a node without
    /// listed turns each turn is free of penalty and limit.
    #[tactic(auto, unfolding(crate::specs::Network::turn))]
    pub fn turn(&self, a: LinkNo, b: LinkNo) -> Option<Turn>
        requires from { a.0 < length self.now.links }
        requires to { b.0 < length self.now.links }
        ensures turn { result ≡ turn_between self.now a.0 b.0 }
        ensures none { (result ≡ None) ↔ ¬ IsAllowed self.now a.0 b.0 }
    {
        let node = row(&self.links, a).to;
        if row(&self.links, b).from == node {
            self.turn_at(node, a, b)
        } else {
            None
        }
    }

    /// Whether some turn is listed at a node, so that the listed ones alone are allowed there.
    pub fn is_named(&self, node: NodeNo) -> bool
        requires { node.0 < length self.now.nodes }
        ensures { result ≡ is_named_at self.now node.0 }
    {
        self.named[node.0 as usize]
    }

    // The turn between two links that meet at a node.
    fn turn_at(&self, node: NodeNo, a: LinkNo, b: LinkNo) -> Option<Turn>
        requires here { (link_at self.now a.0).to ≡ node }
        requires within { node.0 < length self.now.nodes }
        ensures { result ≡ turn_found self.now node.0 a.0 b.0 }
    {
        if self.named[node.0 as usize] {
            self.listed_turn(a, b)
        } else {
            Some(FREE)
        }
    }

    // The listed turn from a link to another.
    fn listed_turn(&self, a: LinkNo, b: LinkNo) -> Option<Turn>
        ensures { result ≡ as_turn (find (is_from_to a.0 b.0) self.now.turns) }
    {
        match self.pairs.place(a.0, b.0) {
            Some(place) => {
                let row = self.turns[place];
                Some(Turn {
                    penalty: row.penalty,
                    rate: row.rate,
                })
            }
            None => None,
        }
    }

    /// The windows of a link.
    pub fn link_windows(&self, link: LinkNo) -> &[Window]
        ensures windows { result.now ≡ windows_of_link self.now link.0 }
    {
        windows_in(&self.link_windows, link.0 as usize)
    }

    /// The windows of the turn from a link to another; none where it isn't listed.
    #[tactic(auto, unfolding(crate::specs::Network::turn_windows))]
    pub fn turn_windows(&self, a: LinkNo, b: LinkNo) -> &[Window]
        ensures windows { result.now ≡ windows_of_turn self.now a.0 b.0 }
        ensures sound { AreRates (rates_of_turn self.now a.0 b.0) }
    {
        match self.pairs.place(a.0, b.0) {
            Some(place) => windows_in(&self.turn_windows, place),
            None => &[],
        }
    }

    /// The rates of a link, copied.
    pub fn link_rates(&self, alloc: Global, link: LinkNo) -> Result<Rates, Memory>
        requires { link.0 < length self.now.links }
        ensures rates { IfOk result (λ rates. rates ≡ rates_of_link self.now link.0) }
        ensures sound { AreRates (rates_of_link self.now link.0) }
    {
        Ok(Rates {
            usual: Some(row(&self.links, link).rate),
            windows: copy_of(alloc, self.link_windows(link))?,
        })
    }

    /// The rates of a turn, copied. No rate is no limit.
    pub fn turn_rates(&self, alloc: Global, a: LinkNo, b: LinkNo) -> Result<Rates, Memory>
        requires from { a.0 < length self.now.links }
        requires to { b.0 < length self.now.links }
        ensures rates { IfOk result (λ rates. rates ≡ rates_of_turn self.now a.0 b.0) }
        ensures sound { AreRates (rates_of_turn self.now a.0 b.0) }
    {
        Ok(Rates {
            usual: self.usual_rate(a, b),
            windows: copy_of(alloc, self.turn_windows(a, b))?,
        })
    }

    /// The rate of a link in a step, in millionths of a vehicle per hour.
    pub fn link_rate_at(&self, link: LinkNo, step: u32) -> u64
        requires { link.0 < length self.now.links }
        ensures { rate_in (rates_of_link self.now link.0) step ≡ Some result }
    {
        let usual = self.links[link.0 as usize].rate;
        match rate_at(Some(usual), self.link_windows(link), step) {
            Some(rate) => rate,
            None => unreachable!(),
        }
    }

    /// The limit of an allowed turn in a step, in millionths of a vehicle per hour; None where it
    /// has no limit in that step.
    pub fn turn_rate_at(&self, a: LinkNo, b: LinkNo, step: u32) -> Option<u64>
        requires from { a.0 < length self.now.links }
        requires to { b.0 < length self.now.links }
        requires allowed { IsSome (turn_between self.now a.0 b.0) }
        ensures { result ≡ rate_in (rates_of_turn self.now a.0 b.0) step }
    {
        rate_at(self.usual_rate(a, b), self.turn_windows(a, b), step)
    }

    // The limit of a turn outside its windows.
    fn usual_rate(&self, a: LinkNo, b: LinkNo) -> Option<u64>
        requires from { a.0 < length self.now.links }
        requires to { b.0 < length self.now.links }
        ensures { result ≡ limit_of (turn_between self.now a.0 b.0) }
    {
        match self.turn(a, b) {
            Some(turn) => turn.rate,
            None => None,
        }
    }
}

// The windows at a place, and none where there is no entry.
fn windows_in(windows: &[Windows], place: usize) -> &[Window]
    ensures { result.now ≡ get_or windows.now place [] }
{
    match windows.get(place) {
        Some(windows) => windows.as_slice(),
        None => &[],
    }
}
