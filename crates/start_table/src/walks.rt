// The walks by which the rows of a start table fit vehicles.
ghost use Rattle.std.specs.Prelude.{◌≡◌, ◌<◌, ◌≤◌, ◌↔◌, All, IfOk, IfSome, IsTrue, length};
ghost use Rattle.std.specs.Prelude.{nat_eq, option_map};
ghost use Rattle.std.specs.List.{IsDistinct};
ghost use Rattle.net_core.specs.Network.{link_at, zone_id};
ghost use Rattle.net_core.specs.Rows.{link_ids};
ghost use Rattle.net_core.specs.declared.rows.TheConstants.{MOST_LINKS};
ghost use Rattle.dta_model.specs.Plans.{link_numbers};
ghost use Rattle.dta_model.specs.Walks.{IsWalk, begins_in as begins_at, ends_in as ends_at};
ghost use Rattle.dta_model.specs.Walks.{is_zone};
ghost use Rattle.start_table.specs.Starts.{TellsFit, TellsStart, TellsWalk};
ghost use Rattle.start_table.specs.Names.{EndsRight, TellsNames, TurnsOn};

use crate::rows::{StartRow, StartRows};
use dta_model::{Route, Trip};
use net_core::{Ids, LinkNo, LinkRow, Memory, Net, NodeNo};
use std::alloc::Global;
use std::marker::Model;

/// A network, with the places of its links by their identifiers.
#[derive(Drop)]
pub struct LinkIndex<'a> {
    net: &'a Net,
    ids: Ids,
}

impl<'a> Model for LinkIndex<'a> {
    ghost use Rattle.net_core.specs.declared.rows.NetRows.{NetRows};
    ghost use Rattle.start_table.specs.Names.{IsIndex};

    ghost Value = { NetRows };

    ghost view = { λ index. index.net.now };

    ghost invariant = { λ index. IsIndex index.net.now index.ids };
}

// The identifiers of links.
fn ids_of(alloc: Global, links: &[LinkRow]) -> Result<Ids, Memory>
    requires { IsDistinct nat_eq (link_ids links.now) }
    ensures { IfOk result (λ ids. ids ≡ link_ids links.now) }
{
    let mut ids = Ids::new(alloc);
    for link in links {
        ids.add(link.id)?;
    }
    Ok(ids)
}

// The links that have these identifiers, or none where some identifier is no link's.
fn links_named(alloc: Global, index: &Ids, ids: &[u64]) -> Result<Option<Vec<LinkNo>>, Memory>
    requires { length index.now ≤ MOST_LINKS }
    ensures names { IfOk result (λ links.
        TellsNames index.now ids.now (option_map (λ l. l.items) links)) }
    ensures within { IfOk result (λ links. IfSome links (λ l.
        All (λ link. link.0 < length index.now) l.items)) }
{
    let mut links = Vec::with_capacity(alloc, ids.len())?;
    for id in ids {
        match index.place(*id) {
            Some(place) => links.push(LinkNo(place as u32))?,
            None => return Ok(None),
        }
    }
    Ok(Some(links))
}

// Whether a node has a zone.
fn is_in(net: &Net, zone: u64, node: NodeNo) -> bool
    requires { node.0 < length net.now.nodes }
    ensures { result ≡ is_zone zone (zone_id net.now node.0) }
{
    match net.node(node).zone {
        Some(id) => id == zone,
        None => false,
    }
}

// The nodes at which a link begins and ends.
fn ends_of(net: &Net, link: LinkNo) -> (NodeNo, NodeNo)
    requires { link.0 < length net.now.links }
    ensures from { result.0 ≡ (link_at net.now link.0).from }
    ensures to { result.1 ≡ (link_at net.now link.0).to }
    ensures within { (result.0.0 < length net.now.nodes) × (result.1.0 < length net.now.nodes) }
{
    // That links join nodes is known where they are counted.
    let _count = net.link_count();
    let row = net.link(link);
    (row.from, row.to)
}

// Whether a link begins at a node of a zone.
#[tactic(auto, unfolding(dta_model::specs::Walks::begins_in))]
fn begins_in(net: &Net, zone: u64, link: LinkNo) -> bool
    requires { link.0 < length net.now.links }
    ensures { result ≡ begins_at net.now zone link.0 }
{
    is_in(net, zone, ends_of(net, link).0)
}

// Whether a link ends at a node of a zone.
#[tactic(auto, unfolding(dta_model::specs::Walks::ends_in))]
fn ends_in(net: &Net, zone: u64, link: LinkNo) -> bool
    requires { link.0 < length net.now.links }
    ensures { result ≡ ends_at net.now zone link.0 }
{
    is_in(net, zone, ends_of(net, link).1)
}

// Whether there is a turn to the next link, if there is one.
fn turns_on(net: &Net, links: &[LinkNo], at: usize) -> bool
    requires inside { All (λ l. l.0 < length net.now.links) links.now }
    requires place { at < length links.now }
    ensures { IsTrue result ↔ TurnsOn net.now (link_numbers links.now) at }
{
    if at + 1 == links.len() {
        return true;
    }
    net.turn(links[at], links[at + 1]).is_some()
}

// Whether a link ends in a zone exactly if it is the last one.
fn ends_right(net: &Net, destination: u64, links: &[LinkNo], at: usize) -> bool
    requires inside { All (λ l. l.0 < length net.now.links) links.now }
    requires place { at < length links.now }
    ensures { IsTrue result ↔ EndsRight net.now destination (link_numbers links.now) at }
{
    let last = at + 1 == links.len();
    ends_in(net, destination, links[at]) == last
}

// Whether links are a walk from a zone to a zone.
fn is_walk(net: &Net, origin: u64, destination: u64, links: &[LinkNo]) -> bool
    requires { All (λ l. l.0 < length net.now.links) links.now }
    ensures { IsTrue result ↔ IsWalk net.now origin destination (link_numbers links.now) }
{
    if links.is_empty() || !begins_in(net, origin, links[0]) {
        return false;
    }
    for at in 0..links.len() {
        if !turns_on(net, links, at) || !ends_right(net, destination, links, at) {
            return false;
        }
    }
    true
}

// The walk by which a row fits a vehicle, or none where it doesn't.
fn walk_of_row(
    alloc: Global,
    index: &LinkIndex,
    row: &StartRow,
    trip: &Trip,
) -> Result<Option<Route>, Memory>
    requires { row.now.agent ≡ trip.now.number }
    ensures { IfOk result (TellsFit index.now trip.now row.now) }
{
    if row.origin != trip.origin || row.destination != trip.destination {
        return Ok(None);
    }
    index.walk_named(alloc, trip.origin, trip.destination, row.links.as_slice())
}

impl<'a> LinkIndex<'a> {
    /// The index of a network.
    pub fn of(alloc: Global, net: &'a Net) -> Result<Self, Memory>
        ensures { IfOk result (λ index. index ≡ net.now) }
    {
        // That identifiers differ is known where the links are counted.
        let _count = net.link_count();
        let ids = ids_of(alloc, net.links())?;
        Ok(LinkIndex { net, ids })
    }

    /// The walk from a zone to a zone that identifiers of links name, or none where they name none.
    pub fn walk_named(
        &self,
        alloc: Global,
        origin: u64,
        destination: u64,
        ids: &[u64],
    ) -> Result<Option<Route>, Memory>
        ensures { IfOk result (TellsWalk self.now origin destination ids.now) }
    {
        let links = match links_named(alloc, &self.ids, ids)? {
            Some(links) => links,
            None => return Ok(None),
        };
        if is_walk(self.net, origin, destination, &links) {
            Ok(Some(Route::of(links)))
        } else {
            Ok(None)
        }
    }

    /// The walk of a row that fits a vehicle, or none where no row does.
    pub fn walk_of(
        &self,
        alloc: Global,
        start: &StartRows,
        trip: &Trip,
    ) -> Result<Option<Route>, Memory>
        ensures { IfOk result (TellsStart self.now start.now trip.now) }
    {
        match start.row(trip.number as u64) {
            Some(row) => walk_of_row(alloc, self, row, trip),
            None => Ok(None),
        }
    }
}
