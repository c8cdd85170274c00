// The least times between all zones, by labels of a group of destinations after another.
ghost use Rattle.std.specs.Prelude.{◌≡◌, ◌≢◌, ◌+◌, ◌<◌, ◌≤◌, ◌^◌, length, slice_index, take};
ghost use Rattle.std.specs.Prelude.{IfOk};
ghost use Rattle.std.specs.List.{range_with_len};
ghost use Rattle.net_core.specs.Network.{zones as zones_of};
ghost use Rattle.dta_model.specs.LinkTimes.{time_at};
ghost use Rattle.skims.specs.Leasts.{AreBetween, AreFrom, AreTo};
ghost use Rattle.labels.specs.Named.{zone_named};
ghost use Rattle.labels.specs.ToZone.{destination, zone_numbers, TellsLeast};
ghost use Rattle.trip_costs.specs.Timings.{Links};
ghost use Rattle.trip_costs.specs.Costs.{timing_of};

use labels::{GroupLabels, MOST_GROUP};
use link_times::LinkTimes;
use net_core::{Memory, Net, ZoneNo};
use std::alloc::Global;
use std::marker::Model;
use trip_costs::WalkCosts;

// The least times to a zone for a start: from each zone in order, none from the zone itself.
type Leasts = Vec<Option<u64>>;

/// The least times between all zones by a table of link times, for some starts.
#[derive(Drop)]
pub(crate) struct LeastTimes<'a> {
    net: &'a Net,
    times: &'a LinkTimes,
    starts: &'a [u32],
    // To each zone in order, for each start in order.
    to_each: Vec<Vec<Leasts>>,
}

impl<'a> Model for LeastTimes<'a> {
    ghost use Rattle.skims.specs.Leasts.{Sought};
    ghost use Rattle.skims.specs.LeastsInside.{sought_by, AreLeasts};

    ghost Value = { Sought };

    ghost view = { sought_by };

    ghost invariant = { AreLeasts };
}

// The least time from a zone to the zone at a place of a group, whose number is told too. None
// from the zone itself.
fn least_from(labels: &GroupLabels, place: usize, zone: u32, origin: u32, start: u32) -> Option<u64>
    requires place { place < length labels.now.zones }
    requires zone { slice_index labels.now.zones place ≡ zone }
    requires origin { origin < length (zones_of labels.now.net.nodes) }
    ensures { origin ≢ zone → TellsLeast (timing_of labels.now.costs) labels.now.net
        (zone_named labels.now.net origin) (destination labels.now place) start result }
{
    if origin == zone {
        None
    } else {
        labels.least(place, ZoneNo(origin), start)
    }
}

// Those from each of so many zones.
fn leasts_from_each(
    alloc: Global,
    labels: &GroupLabels,
    place: usize,
    zone: u32,
    zones: u32,
    start: u32,
) -> Result<Leasts, Memory>
    requires place { place < length labels.now.zones }
    requires zone { slice_index labels.now.zones place ≡ zone }
    requires zones { zones ≡ length (zones_of labels.now.net.nodes) }
    ensures { IfOk result (λ leasts. AreFrom (timing_of labels.now.costs) labels.now.net
        (zones_of labels.now.net.nodes) (destination labels.now place) start leasts.items) }
{
    let mut leasts = Vec::with_capacity(alloc, zones as usize)?;
    for origin in 0..zones {
        leasts.push(least_from(labels, place, zone, origin, start))?;
    }
    Ok(leasts)
}

// Those for each start.
fn leasts_by_start(
    alloc: Global,
    labels: &GroupLabels,
    place: usize,
    zone: u32,
    zones: u32,
    starts: &[u32],
) -> Result<Vec<Leasts>, Memory>
    requires place { place < length labels.now.zones }
    requires zone { slice_index labels.now.zones place ≡ zone }
    requires zones { zones ≡ length (zones_of labels.now.net.nodes) }
    ensures { IfOk result (λ leasts. AreTo (timing_of labels.now.costs) labels.now.net starts.now
        (destination labels.now place) leasts.items) }
{
    let mut leasts = Vec::with_capacity(alloc, starts.len())?;
    for start in starts {
        leasts.push(leasts_from_each(alloc, labels, place, zone, zones, *start)?)?;
    }
    Ok(leasts)
}

// So many zones, from one on.
fn zones_from(alloc: Global, first: u32, count: u32) -> Result<Vec<ZoneNo>, Memory>
    requires { first + count < 2 ^ 32 }
    ensures { IfOk result (λ zones. zone_numbers zones.items ≡ range_with_len first count) }
{
    let mut zones = Vec::with_capacity(alloc, count as usize)?;
    for place in 0..count {
        zones.push(ZoneNo(first + place))?;
    }
    Ok(zones)
}

// Adds the least times to the next zones, from one on, where those to the zones before it are
// there: as many as a group has, or all that are left. The result is the zone after them.
fn add_group(
    alloc: Global,
    net: &Net,
    times: &LinkTimes,
    starts: &[u32],
    first: u32,
    to_each: &mut Vec<Vec<Leasts>>,
) -> Result<u32, Memory>
    requires table { length times.now.free ≡ length net.now.links }
    requires first { first < length (zones_of net.now.nodes) }
    requires before { AreBetween (Links (time_at times.now)) net.now starts.now
        (take first (zones_of net.now.nodes)) to_each.old.items }
    ensures between { IfOk result (λ next. AreBetween (Links (time_at times.now)) net.now starts.now
        (take next (zones_of net.now.nodes)) to_each.new.items) }
    ensures more { IfOk result (λ next. first < next) }
    ensures within { IfOk result (λ next. next ≤ length (zones_of net.now.nodes)) }
{
    let zones = net.zone_count();
    let count = (zones - first).min(MOST_GROUP as u32);
    let group = zones_from(alloc, first, count)?;
    let labels = GroupLabels::to_zones(alloc, net, WalkCosts::Links(times), &group)?;
    for place in 0..count {
        let zone = first + place;
        to_each.push(leasts_by_start(alloc, &labels, place as usize, zone, zones, starts)?)?;
    }
    Ok(first + count)
}

// Those to all zones.
fn leasts_to_each(
    alloc: Global,
    net: &Net,
    times: &LinkTimes,
    starts: &[u32],
) -> Result<Vec<Vec<Leasts>>, Memory>
    requires { length times.now.free ≡ length net.now.links }
    ensures { IfOk result (λ to_each. AreBetween (Links (time_at times.now)) net.now starts.now
        (zones_of net.now.nodes) to_each.items) }
{
    let zones = net.zone_count();
    let mut to_each = Vec::with_capacity(alloc, zones as usize)?;
    let mut first = 0;
    while first < zones {
        first = add_group(alloc, net, times, starts, first, &mut to_each)?;
    }
    Ok(to_each)
}

impl<'a> LeastTimes<'a> {
    /// The least times between all zones by a table of link times, for some starts.
    pub(crate) fn of(
        alloc: Global,
        net: &'a Net,
        times: &'a LinkTimes,
        starts: &'a [u32],
    ) -> Result<Self, Memory>
        requires { length times.now.free ≡ length net.now.links }
        ensures { IfOk result (λ leasts. leasts ≡ record {
          net = net.now;
          times = times.now;
          starts = starts.now;
        }) }
    {
        let to_each = leasts_to_each(alloc, net, times, starts)?;
        Ok(LeastTimes {
            net,
            times,
            starts,
            to_each,
        })
    }

    /// The least time from a zone to another for the start at a place, the zones by their numbers.
    /// None where there is no walk.
    pub(crate) fn get(&self, origin: usize, destination: usize, start: usize) -> Option<u64>
        requires origin { origin < length (zones_of self.now.net.nodes) }
        requires destination { destination < length (zones_of self.now.net.nodes) }
        requires start { start < length self.now.starts }
        ensures { zone_named self.now.net origin ≢ zone_named self.now.net destination
            → TellsLeast (Links (time_at self.now.times)) self.now.net
            (zone_named self.now.net origin) (zone_named self.now.net destination)
            (slice_index self.now.starts start) result }
    {
        self.to_each[destination][start][origin]
    }
}
