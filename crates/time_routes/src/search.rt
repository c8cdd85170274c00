// What answers of vehicles are searched with.
ghost use Rattle.std.specs.Prelude.{◌≡◌, ◌≤◌, length, All, IfOk, OnOk};
ghost use Rattle.net_core.specs.AreListed.{AreListed};
ghost use Rattle.net_core.specs.Network.{numbers_below, zones as zones_of};
ghost use Rattle.time_routes.specs.Answers.{IsSearch};
ghost use Rattle.time_routes.specs.Tell.{IsNamed, noted, origins_of, wanted, wanted_zone};
ghost use Rattle.labels.specs.declared.states.zone_numbers.TheConstants.{NO_ZONE};
ghost use Rattle.time_routes.specs.declared.zone_memo.TheConstants.{PLACES};
ghost use Rattle.trip_costs.specs.WalkCosts.{table_in};

use crate::vehicles::Ask;
use crate::zone_memo::{NamedZone, no_zones, number_of};
use dta_model::{MOST_TRIPS, Trip};
use labels::{ByZone, NO_ZONE};
use net_core::{Memory, Net, ZoneNo};
use std::alloc::Global;
use trip_costs::WalkCosts;

/// The costs of walks over a network, and vehicles with what is asked of them. Those that
/// something is asked of are listed by the zones to which they go; the zones are told in which all
/// begin.
#[derive(Drop)]
pub(crate) struct Search<'a> {
    pub(crate) net: &'a Net,
    pub(crate) costs: WalkCosts<'a>,
    pub(crate) trips: &'a [Trip],
    pub(crate) asks: &'a [Ask],
    pub(crate) lists: ByZone,
    pub(crate) origins: Vec<u32>,
    ghost is: { IsSearch net.now (table_in costs) trips.now asks.now lists origins.items },
}

// The number of the zone to which a trip leads, or the one that stands for none where nothing is
// asked of its vehicle.
fn zone_wanted(net: &Net, seen: &mut Vec<NamedZone>, trip: &Trip, ask: Ask) -> u32
    requires many { length seen.old.items ≡ PLACES }
    requires right { All (IsNamed net.now) seen.old.items }
    ensures many { length seen.new.items ≡ PLACES }
    ensures right { All (IsNamed net.now) seen.new.items }
    ensures is { result ≡ wanted net.now trip.now ask }
{
    if ask.least || ask.walk {
        number_of(net, seen, trip.destination)
    } else {
        NO_ZONE
    }
}

/// The vehicles that something is asked of, by the zones to which they go, and the zones in which
/// all begin.
pub(crate) fn by_zones(
    alloc: Global,
    net: &Net,
    trips: &[Trip],
    asks: &[Ask],
) -> Result<(ByZone, Vec<u32>), Memory>
    requires few { length trips.now ≤ MOST_TRIPS }
    requires each { length asks.now ≡ length trips.now }
    ensures grouped { IfOk result (λ r. AreListed r.0 (length (zones_of net.now.nodes))
        (wanted_zone net.now trips.now asks.now) (numbers_below (length trips.now))) }
    ensures numbers { length (zones_of net.now.nodes) ≤ NO_ZONE }
    ensures origins { IfOk result (λ r. r.1.items ≡ origins_of net.now trips.now) }
{
    let _sound = net.node_count();
    let mut lists = ByZone::new(alloc, net.zone_count())?;
    let mut origins = Vec::with_capacity(alloc, trips.len())?;
    let mut seen = no_zones(alloc, net)?;
    for v in 0..trips.len() {
        lists.note(zone_wanted(net, &mut seen, &trips[v], asks[v]), v as u32)?;
        origins.push(number_of(net, &mut seen, trips[v].origin))?;
    }
    Ok((lists, origins))
}

// Adds a zone where some vehicle goes there.
fn note(found: &mut Vec<ZoneNo>, zone: ZoneNo, vehicles: &[u32]) -> Result<(), Memory>
    ensures { OnOk result (found.new.items ≡ noted found.old.items zone vehicles.now) }
{
    if !vehicles.is_empty() {
        found.push(zone)?;
    }
    Ok(())
}

impl<'a> Search<'a> {
    ghost use Rattle.time_routes.specs.Searches.{AreZones, HoldsAll};

    /// The zones to which vehicles go, in order.
    pub(crate) fn zones(&self, alloc: Global) -> Result<Vec<ZoneNo>, Memory>
        ensures inside { IfOk result (λ found. AreZones self.now found.items) }
        ensures each { IfOk result (λ found. HoldsAll self.now found.items) }
    {
        let mut found = Vec::new(alloc);
        for zone in 0..self.net.zone_count() {
            note(&mut found, ZoneNo(zone), self.lists.get(zone))?;
        }
        Ok(found)
    }
}
