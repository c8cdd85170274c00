// Visits added into the buckets of their entries.
ghost use Rattle.std.specs.Prelude.{◌≡◌, ℕ, ◌+◌, ◌*◌, ◌/◌, ◌<◌, ◌≤◌, ◌^◌, List, length};
ghost use Rattle.std.specs.Prelude.{slice_index, slice_get, slice_set, Option, Some, All, IfOk};
ghost use Rattle.dta_model.specs.Lent.{plan_of};
ghost use Rattle.dta_model.specs.LinkTimes.{buckets_to, place_in};
ghost use Rattle.dta_model.specs.Loading.{journeys_of, trace_after};
ghost use Rattle.dta_model.specs.Sound.{IsSound};
ghost use Rattle.dta_model.specs.Trace.{moves_of};
ghost use Rattle.link_times.specs.Buckets.{AreBuckets, cells_of};
ghost use Rattle.link_times.specs.Journeys.{HasGone, moves_along};
ghost use Rattle.link_times.specs.Sums.{AreAdded, AreSums, AreWithin};

use crate::visit::visit_steps;
use dta_model::{Journey, Loaded, Loading, MOST_HORIZON, MOST_TRIPS};
use net_core::{LinkNo, Memory};
use std::alloc::Global;

// The buckets of a loading: the steps of each, and how many a link has.
#[derive(Clone, Copy, Drop)]
struct Buckets<'a> {
    loading: Loading<'a>,
    steps: u32,
    count: u32,
}

// The place of the bucket in which a link is entered.
#[tactic(auto, using(crate::proofs::Places::bucket_inside, crate::proofs::Places::place_inside))]
fn place_of(buckets: &Buckets, link: LinkNo, entry: u32) -> usize
    requires buckets { AreBuckets buckets.now }
    requires link { link.0 < length buckets.now.loading.net.now.links }
    requires entry { entry < buckets.now.loading.horizon }
    ensures place { result ≡ place_in buckets.now.count link.0 (entry / buckets.now.steps) }
    ensures bucket { entry / buckets.now.steps < buckets.now.count }
    ensures inside { result < cells_of buckets.now }
{
    link.0 as usize * buckets.count as usize + (entry / buckets.steps) as usize
}

// Adds a visit to the sum and the number of its bucket.
fn add_visit(sums: &mut [u64], counts: &mut [u64], place: usize, steps: u32)
    requires place { place < length sums.old }
    requires many { length counts.old ≡ length sums.old }
    requires room { (slice_index sums.old place + steps < 2 ^ 64)
        × (slice_index counts.old place + 1 < 2 ^ 64) }
    ensures sums { sums.new ≡ slice_set sums.old place (slice_index sums.old place + steps) }
    ensures counts { counts.new ≡ slice_set counts.old place (slice_index counts.old place + 1) }
{
    sums[place] += u64::from(steps);
    counts[place] += 1;
}

// Adds the visits of a vehicle that has a route. No sum passes 64 bits: a vehicle has at most
// MOST_HORIZON entries, since it moves once in a step, and each takes at most so many steps.
fn add_journey(
    sums: &mut [u64],
    counts: &mut [u64],
    buckets: &Buckets,
    vehicle: u32,
    route: &[LinkNo],
    journey: &Journey,
)
    requires buckets { AreBuckets buckets.now }
    requires gone { HasGone (plan_of buckets.now.loading) vehicle route.now
        journey.now.entries journey.now.arrival }
    requires vehicle { vehicle < MOST_TRIPS }
    requires size { length sums.old ≡ cells_of buckets.now }
    requires many { length counts.old ≡ length sums.old }
    requires within { AreWithin (vehicle * MOST_HORIZON) sums.old counts.old }
    ensures size { length sums.new ≡ length sums.old }
    ensures many { length counts.new ≡ length sums.new }
    ensures added { AreAdded (plan_of buckets.now.loading) buckets.now.steps buckets.now.count
        (moves_along vehicle route.now journey.now.entries journey.now.arrival)
        sums.old counts.old sums.new counts.new }
    ensures within { AreWithin ((vehicle + 1) * MOST_HORIZON) sums.new counts.new }
{
    let entries = journey.entries.as_slice();
    for place in 0..entries.len() {
        let steps = visit_steps(
            &buckets.loading,
            vehicle,
            route,
            entries,
            journey.arrival,
            place,
        );
        let bucket_place = place_of(buckets, route[place], entries[place]);
        add_visit(sums, counts, bucket_place, steps);
    }
}

// Adds the visits of a vehicle.
fn add_vehicle(
    sums: &mut [u64],
    counts: &mut [u64],
    buckets: &Buckets,
    loaded: &Loaded,
    vehicle: u32,
)
    requires buckets { AreBuckets buckets.now }
    requires loaded { loaded.now ≡ journeys_of (plan_of buckets.now.loading) }
    requires vehicle { vehicle < length buckets.now.loading.trips.now }
    requires size { length sums.old ≡ cells_of buckets.now }
    requires many { length counts.old ≡ length sums.old }
    requires within { AreWithin (vehicle * MOST_HORIZON) sums.old counts.old }
    ensures size { length sums.new ≡ length sums.old }
    ensures many { length counts.new ≡ length sums.new }
    ensures added { AreAdded (plan_of buckets.now.loading) buckets.now.steps buckets.now.count
        (moves_of vehicle
        (trace_after (plan_of buckets.now.loading) buckets.now.loading.horizon))
        sums.old counts.old sums.new counts.new }
    ensures within { AreWithin ((vehicle + 1) * MOST_HORIZON) sums.new counts.new }
{
    if let Some(route) = buckets.loading.routes.get(vehicle) {
        let journey = loaded.get(vehicle);
        add_journey(sums, counts, buckets, vehicle, route.as_slice(), journey);
    }
}

// Adds the visits of all vehicles.
fn add_journeys(sums: &mut [u64], counts: &mut [u64], buckets: &Buckets, loaded: &Loaded)
    requires buckets { AreBuckets buckets.now }
    requires loaded { loaded.now ≡ journeys_of (plan_of buckets.now.loading) }
    requires size { length sums.old ≡ cells_of buckets.now }
    requires many { length counts.old ≡ length sums.old }
    requires empty { All (λ x. x ≡ 0) sums.old }
    requires none { All (λ x. x ≡ 0) counts.old }
    ensures size { length sums.new ≡ length sums.old }
    ensures many { length counts.new ≡ length sums.new }
    ensures added { AreSums (plan_of buckets.now.loading) buckets.now.steps buckets.now.count
        (length buckets.now.loading.trips.now) sums.new counts.new }
    ensures within { AreWithin (MOST_TRIPS * MOST_HORIZON) sums.new counts.new }
{
    for vehicle in 0..buckets.loading.trips.len() as u32 {
        add_vehicle(sums, counts, buckets, loaded, vehicle);
    }
}

// The sum of the times of each bucket, and the number of its visits.
#[derive(Drop)]
pub struct Sums {
    pub sums: Vec<u64>,
    pub counts: Vec<u64>,
}

// The sums and numbers of all visits.
pub fn sums_of(
    alloc: Global,
    loading: &Loading,
    loaded: &Loaded,
    bucket: u32,
    buckets: u32,
) -> Result<Sums, Memory>
    requires sound { IsSound (plan_of loading.now) }
    requires loaded { loaded.now ≡ journeys_of (plan_of loading.now) }
    requires bucket { 1 ≤ bucket }
    requires buckets { buckets ≡ buckets_to bucket loading.now.horizon }
    ensures size { IfOk result (λ s.
        length s.sums.items ≡ length loading.now.net.now.links * buckets) }
    ensures many { IfOk result (λ s. length s.counts.items ≡ length s.sums.items) }
    ensures added { IfOk result (λ s. AreSums (plan_of loading.now) bucket buckets
        (length loading.now.trips.now) s.sums.items s.counts.items) }
    ensures within { IfOk result (λ s.
        AreWithin (MOST_TRIPS * MOST_HORIZON) s.sums.items s.counts.items) }
{
    let cells = loading.net.link_count() as usize * buckets as usize;
    let mut sums = vec![in alloc; 0u64; cells]?;
    let mut counts = vec![in alloc; 0u64; cells]?;
    let into = Buckets {
        loading: *loading,
        steps: bucket,
        count: buckets,
    };
    add_journeys(&mut sums, &mut counts, &into, loaded);
    Ok(Sums { sums, counts })
}
