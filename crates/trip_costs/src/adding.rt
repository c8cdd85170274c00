// Waits at origins, added into the buckets of the departures.
ghost use Rattle.std.specs.Prelude.{◌≡◌, ◌+◌, ◌*◌, ◌/◌, ◌<◌, ◌≤◌, ◌^◌, length, slice_index};
ghost use Rattle.std.specs.Prelude.{All, IfOk, IfSome, Some, option_map, slice_set};
ghost use Rattle.dta_model.specs.Lent.{plan_of};
ghost use Rattle.dta_model.specs.LinkTimes.{buckets_to, place_in};
ghost use Rattle.dta_model.specs.Plans.{first_link};
ghost use Rattle.dta_model.specs.Sound.{IsSound};
ghost use Rattle.trip_costs.specs.OriginWaits.{first_entry, steps_to_entry};
ghost use Rattle.trip_costs.specs.WaitSums.{AreBuckets, AreWaitSums, cells_of};

use dta_model::{Journey, Loaded, Loading};
use net_core::{LinkNo, Memory};
use std::alloc::Global;

// The buckets of a loading: the steps of each, and how many a link has.
#[derive(Clone, Copy, Drop)]
struct Buckets<'a> {
    loading: Loading<'a>,
    steps: u32,
    count: u32,
}

// The first link of a vehicle's route, if it has one.
fn first_of(loading: &Loading, vehicle: u32) -> Option<LinkNo>
    requires sound { IsSound (plan_of loading.now) }
    requires vehicle { vehicle < length loading.now.trips.now }
    ensures first { first_link (plan_of loading.now) vehicle ≡ option_map (λ l. l.0) result }
    ensures inside { IfSome result (λ l. l.0 < length loading.now.net.now.links) }
{
    match loading.routes.get(vehicle) {
        Some(route) => route.as_slice().first().copied(),
        None => None,
    }
}

// The steps from a departure to the first entry, or to the horizon where there is none.
fn wait_of(horizon: u32, departure: u32, journey: &Journey) -> u32
    requires departure { departure < horizon }
    ensures { result ≡ steps_to_entry horizon departure (first_entry (Some journey.now)) }
{
    match journey.entries.as_slice().first() {
        Some(entry) => entry.saturating_sub(departure),
        None => horizon - departure,
    }
}

// The place of the bucket in which who begins with a link departs.
#[tactic(auto, using(link_times::proofs::Places::bucket_inside))]
fn place_of(buckets: &Buckets, link: LinkNo, departure: u32) -> usize
    requires buckets { AreBuckets buckets.now }
    requires link { link.0 < length buckets.now.loading.net.now.links }
    requires departure { departure < buckets.now.loading.horizon }
    ensures place { result ≡ place_in buckets.now.count link.0 (departure / buckets.now.steps) }
    ensures bucket { departure / buckets.now.steps < buckets.now.count }
    ensures inside { result < cells_of buckets.now }
{
    link.0 as usize * buckets.count as usize + (departure / buckets.steps) as usize
}

// Adds a wait to the sum and the number of its bucket.
fn add_wait(sums: &mut [u64], departed: &mut [u32], place: usize, wait: u32)
    requires place { place < length sums.old }
    requires many { length departed.old ≡ length sums.old }
    requires sum_room { slice_index sums.old place + wait < 2 ^ 64 }
    requires room { slice_index departed.old place + 1 < 2 ^ 32 }
    ensures sums { sums.new ≡ slice_set sums.old place (slice_index sums.old place + wait) }
    ensures departed { departed.new
        ≡ slice_set departed.old place (slice_index departed.old place + 1) }
{
    sums[place] += u64::from(wait);
    departed[place] += 1;
}

// Adds the wait of a vehicle, where it has a route.
fn add_vehicle(
    sums: &mut [u64],
    departed: &mut [u32],
    buckets: &Buckets,
    loaded: &Loaded,
    vehicle: u32,
)
    requires buckets { AreBuckets buckets.now }
    requires loaded { length loaded.now ≡ length buckets.now.loading.trips.now }
    requires vehicle { vehicle < length buckets.now.loading.trips.now }
    requires before { AreWaitSums (plan_of buckets.now.loading) buckets.now.steps
        buckets.now.count loaded.now vehicle sums.old departed.old }
    ensures { AreWaitSums (plan_of buckets.now.loading) buckets.now.steps buckets.now.count
        loaded.now (vehicle + 1) sums.new departed.new }
{
    if let Some(link) = first_of(&buckets.loading, vehicle) {
        let departure = buckets.loading.trips[vehicle as usize].departure;
        let wait = wait_of(buckets.loading.horizon, departure, loaded.get(vehicle));
        let place = place_of(buckets, link, departure);
        add_wait(sums, departed, place, wait);
    }
}

// Adds the waits of all vehicles that have a route.
fn add_vehicles(sums: &mut [u64], departed: &mut [u32], buckets: &Buckets, loaded: &Loaded)
    requires buckets { AreBuckets buckets.now }
    requires loaded { length loaded.now ≡ length buckets.now.loading.trips.now }
    requires size { length sums.old ≡ cells_of buckets.now }
    requires many { length departed.old ≡ length sums.old }
    requires empty { All (λ x. x ≡ 0) sums.old }
    requires none { All (λ x. x ≡ 0) departed.old }
    ensures { AreWaitSums (plan_of buckets.now.loading) buckets.now.steps buckets.now.count
        loaded.now (length buckets.now.loading.trips.now) sums.new departed.new }
{
    for vehicle in 0..buckets.loading.trips.len() as u32 {
        add_vehicle(sums, departed, buckets, loaded, vehicle);
    }
}

// The sum of the waits of each bucket, and how many departed in it.
#[derive(Drop)]
pub struct WaitSums {
    pub sums: Vec<u64>,
    pub departed: Vec<u32>,
}

// The sums and numbers of a loading.
pub fn wait_sums(
    alloc: Global,
    loading: &Loading,
    loaded: &Loaded,
    bucket: u32,
    buckets: u32,
) -> Result<WaitSums, Memory>
    requires sound { IsSound (plan_of loading.now) }
    requires loaded { length loaded.now ≡ length loading.now.trips.now }
    requires bucket { 1 ≤ bucket }
    requires buckets { buckets ≡ buckets_to bucket loading.now.horizon }
    ensures { IfOk result (λ s. AreWaitSums (plan_of loading.now) bucket buckets loaded.now
        (length loading.now.trips.now) s.sums.items s.departed.items) }
{
    let cells = loading.net.link_count() as usize * buckets as usize;
    let mut sums = vec![in alloc; 0u64; cells]?;
    let mut departed = vec![in alloc; 0u32; cells]?;
    let into = Buckets {
        loading: *loading,
        steps: bucket,
        count: buckets,
    };
    add_vehicles(&mut sums, &mut departed, &into, loaded);
    Ok(WaitSums { sums, departed })
}
