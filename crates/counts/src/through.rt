// Vehicles that enter a link, gathered by their zones, put in order and counted.
ghost use Rattle.std.specs.Prelude.{◌≡◌, ◌+◌, ◌<◌, ◌≤◌, ◌^◌, length, All, IfOk, OnOk, Some};
ghost use Rattle.std.specs.Prelude.{nat_eq, slice_get};
ghost use Rattle.std.specs.List.{list_any};
ghost use Rattle.std.specs.List.Sorted.{IsSorted};
ghost use Rattle.dta_model.specs.Lent.{plan_of};
ghost use Rattle.dta_model.specs.Loading.{journeys_of, trace_after};
ghost use Rattle.dta_model.specs.Sound.{IsSound};
ghost use Rattle.counts.specs.Inside.Pairs.{ArePairCounts, ArePairs};
ghost use Rattle.counts.specs.Inside.Pairs.{is_count_of, pair_order, with_pair};
ghost use Rattle.counts.specs.Through.{enters, through_counts, zones_in};

use crate::through_counts::{ThroughCount, ThroughCounts};
use dta_model::{Loaded, Loading, Trip};
use net_core::{LinkNo, Memory};
use std::alloc::Global;

/// The zones between which a vehicle goes, by their identifiers.
#[derive(Clone, Copy, PartialEq, Eq, PartialOrd, Ord, Drop)]
pub struct ZonePair {
    pub origin: u64,
    pub destination: u64,
}

/// How many vehicles from each zone to each zone enter a link up to the horizon. A vehicle that
/// enters it twice counts once. The zones come by the values of their identifiers, and pairs of
/// which no vehicle enters the link are left out.
pub fn count_through(
    alloc: Global,
    loading: &Loading,
    loaded: &Loaded,
    link: LinkNo,
) -> Result<ThroughCounts, Memory>
    requires sound { IsSound (plan_of loading.now) }
    requires loaded { loaded.now ≡ journeys_of (plan_of loading.now) }
    requires link { link.0 < length loading.now.net.now.links }
    ensures { IfOk result (λ counts. counts ≡ through_counts (plan_of loading.now) link.0) }
{
    let mut pairs = gathered(alloc, loading, loaded, link)?;
    pairs.sort_unstable();
    let counts = counted(alloc, pairs.as_slice())?;
    Ok(ThroughCounts::of(counts))
}

// Whether a link is among these.
fn is_among(links: &[LinkNo], link: LinkNo) -> bool
    ensures { result ≡ list_any (λ l. nat_eq l.0 link.0) links.now }
{
    links.iter().any(|l| l.0 == link.0)
}

// Whether a vehicle enters the link.
fn enters(loading: &Loading, loaded: &Loaded, link: LinkNo, vehicle: u32) -> bool
    requires sound { IsSound (plan_of loading.now) }
    requires loaded { loaded.now ≡ journeys_of (plan_of loading.now) }
    requires vehicle { vehicle < length loading.now.trips.now }
    ensures { result ≡ enters link.0
        (trace_after (plan_of loading.now) loading.now.horizon) vehicle }
{
    match loading.routes.get(vehicle) {
        Some(route) => {
            let entered = loaded.get(vehicle).entries.as_slice().len();
            is_among(&route.as_slice()[..entered], link)
        }
        None => false,
    }
}

// The zones of a vehicle's trip.
fn zones_of(trips: &[Trip], vehicle: u32) -> ZonePair
    requires { vehicle < length trips.now }
    ensures { zones_in (slice_get trips.now vehicle) ≡ Some result }
{
    let trip = trips[vehicle as usize];
    ZonePair {
        origin: trip.origin,
        destination: trip.destination,
    }
}

// Adds the zones of a vehicle that enters the link.
fn add_vehicle(
    pairs: &mut Vec<ZonePair>,
    loading: &Loading,
    loaded: &Loaded,
    link: LinkNo,
    vehicle: u32,
) -> Result<(), Memory>
    requires sound { IsSound (plan_of loading.now) }
    requires loaded { loaded.now ≡ journeys_of (plan_of loading.now) }
    requires vehicle { vehicle < length loading.now.trips.now }
    requires pairs { ArePairs (plan_of loading.now) link.0 vehicle pairs.old.items }
    ensures { OnOk result
        (ArePairs (plan_of loading.now) link.0 (vehicle + 1) pairs.new.items) }
{
    if enters(loading, loaded, link, vehicle) {
        pairs.push(zones_of(loading.trips, vehicle))?;
    }
    Ok(())
}

// The zones of all vehicles that enter the link.
fn gathered(
    alloc: Global,
    loading: &Loading,
    loaded: &Loaded,
    link: LinkNo,
) -> Result<Vec<ZonePair>, Memory>
    requires sound { IsSound (plan_of loading.now) }
    requires loaded { loaded.now ≡ journeys_of (plan_of loading.now) }
    ensures { IfOk result (λ pairs. ArePairs (plan_of loading.now) link.0
        (length loading.now.trips.now) pairs.items) }
{
    let mut pairs = Vec::new(alloc);
    for vehicle in 0..loading.trips.len() as u32 {
        add_vehicle(&mut pairs, loading, loaded, link, vehicle)?;
    }
    Ok(pairs)
}

// Whether a count is that of a pair of zones.
fn is_of(count: &ThroughCount, pair: ZonePair) -> bool
    ensures { result ≡ is_count_of pair count.now }
{
    pair.origin == count.origin && pair.destination == count.destination
}

// Counts a pair that is the one counted last, or comes after it.
fn count_pair(counts: &mut Vec<ThroughCount>, pair: ZonePair) -> Result<(), Memory>
    requires { All (λ c. c.vehicles + 1 < 2 ^ 64) counts.old.items }
    ensures { OnOk result (counts.new.items ≡ with_pair pair counts.old.items) }
{
    let many = counts.len();
    if many > 0 && is_of(&counts[many - 1], pair) {
        let last = &mut counts[many - 1];
        last.vehicles += 1;
        return Ok(());
    }
    counts.push(ThroughCount {
        origin: pair.origin,
        destination: pair.destination,
        vehicles: 1,
    })?;
    Ok(())
}

// The counts of pairs that are in order.
fn counted(alloc: Global, pairs: &[ZonePair]) -> Result<Vec<ThroughCount>, Memory>
    requires { IsSorted pair_order pairs.now }
    ensures { IfOk result (λ counts. ArePairCounts pairs.now pairs.now counts.items) }
{
    let mut counts = Vec::new(alloc);
    for pair in pairs {
        count_pair(&mut counts, *pair)?;
    }
    Ok(counts)
}
