// Vehicles by their destinations, and what is told of them: least times and chosen walks.
ghost use Rattle.std.specs.Prelude.{◌≡◌, ◌<◌, ◌≤◌, length, replicate, All, None, IfOk, OnOk};
ghost use Rattle.dta_model.specs.Sound.{AreTrips};
ghost use Rattle.time_routes.specs.Destinations.{IsAllTold};
ghost use Rattle.time_routes.specs.Groups.{IsOfGroup};
ghost use Rattle.time_routes.specs.Searches.{GoesToAny, TellsMore};
ghost use Rattle.time_routes.specs.Tell.{AreAsMany};
ghost use Rattle.time_routes.specs.declared.shares.TheConstants.{MOST_SHARES};
ghost use Rattle.trip_costs.specs.WalkCosts.{table_in, timing};

use crate::groups::{GroupAnswers, Groups};
use crate::put_answers::put_answers;
use crate::search::{Search, by_zones};
use crate::shares::{MOST_SHARES, share_count};
use crate::table_pool::TablePool;
use dta_model::{Route, Trip};
use labels::Spare;
use net_core::{Memory, Net};
use std::alloc::Global;
use std::sync::atomic::AtomicUsize;
use std::thread;
use std::thread::Threads;
use trip_costs::WalkCosts;

/// What is asked of a vehicle: its least time, its chosen walk, both or none.
#[derive(Clone, Copy, Debug, PartialEq, Eq, Drop)]
pub struct Ask {
    pub least: bool,
    pub walk: bool,
}

/// What is told of vehicles, in their order: the least steps and the chosen walk of each that was
/// asked of. None where there is no walk, and where it wasn't asked.
#[derive(Drop)]
pub struct Told {
    pub leasts: Vec<Option<u64>>,
    pub walks: Vec<Option<Route>>,
}

impl Told {
    // Nothing is told of so many vehicles.
    fn none(alloc: Global, count: usize) -> Result<Self, Memory>
        ensures leasts { IfOk result (λ told. told.leasts.items ≡ replicate count None) }
        ensures walks { IfOk result (λ told. told.walks.items ≡ replicate count None) }
    {
        let mut leasts = Vec::new(alloc);
        let mut walks = Vec::new(alloc);
        for _ in 0..count {
            leasts.push(None)?;
            walks.push(None)?;
        }
        Ok(Told { leasts, walks })
    }
}

// Tells what is asked of the vehicles that go to zones in groups, by so many shares, each in a
// thread of its own where one can be made. A share takes the next group as soon as it has answered
// one, so that none waits for a slower one while there are groups. The answers are then put in the
// order of vehicles.
fn tell_shares<R: AllocGlobal + Threads + Sync>(
    rt: &R,
    groups: &Groups,
    shares: usize,
    pool: &TablePool,
    told: &mut Told,
) -> Result<(), Memory>
    requires shares { shares ≤ MOST_SHARES }
    requires told { AreAsMany told.old (length groups.now.search.now.trips.now) }
    ensures { OnOk result (TellsMore groups.now.search.now
        (GoesToAny groups.now.search.now groups.now.zones.now) told.old told.new) }
{
    let alloc = rt.alloc();
    let count = groups.count();
    let next = AtomicUsize::new(0);
    let work = |share: usize| -> Result<Vec<GroupAnswers>, Memory>
        requires { share < MOST_SHARES }
        ensures { IfOk result (λ taken. All (IsOfGroup groups.entry.now) taken.items) }
    {
        let (taken, spare) = groups.answers_of_share(alloc, &next, pool.take(share))?;
        drop(pool.swap(share, spare));
        Ok(taken)
    };
    let worked = thread::map_indices(rt, alloc, shares.min(count), &work)?;
    let mut found = groups.found_in(alloc, count, worked)?;
    for group in 0..count {
        let answers = groups.answers_of_group(alloc, &mut found, group, pool)?;
        put_answers(groups.search, answers, told);
    }
    Ok(())
}

/// Tells the least times and the chosen walks of vehicles, started at their departures, of which
/// it is asked. The labels of up to eight destinations serve all their vehicles; a zone to which
/// no vehicle goes that is asked of has none.
pub fn tell(
    alloc: Global,
    net: &Net,
    costs: WalkCosts,
    trips: &[Trip],
    asks: &[Ask],
) -> Result<Told, Memory>
    requires table { length (table_in costs).free ≡ length net.now.links }
    requires trips { AreTrips trips.now }
    requires each { length asks.now ≡ length trips.now }
    ensures { IfOk result (IsAllTold (timing costs.entry) net.now trips.now asks.now) }
{
    let (lists, origins) = by_zones(alloc, net, trips, asks)?;
    let search = Search {
        net,
        costs,
        trips,
        asks,
        lists,
        origins,
    };
    let zones = search.zones(alloc)?;
    let (answers, _) = search.answers_to(alloc, &zones, Spare::none(alloc))?;
    let mut told = Told::none(alloc, trips.len())?;
    put_answers(&search, answers, &mut told);
    Ok(told)
}

/// The same as [`tell`], by shares of the destinations side by side: at most as many as the pool
/// has workers, at most four, and as few that the labels that are there at once take no more than
/// four tables of eight bytes for each link and step. That leaves two where turns are listed at
/// every node, and four where at most nodes none is.
pub fn tell_by_shares<R: AllocGlobal + Threads + Sync>(
    rt: &R,
    net: &Net,
    costs: WalkCosts,
    trips: &[Trip],
    asks: &[Ask],
    pool: &TablePool,
) -> Result<Told, Memory>
    requires table { length (table_in costs).free ≡ length net.now.links }
    requires trips { AreTrips trips.now }
    requires each { length asks.now ≡ length trips.now }
    ensures { IfOk result (IsAllTold (timing costs.entry) net.now trips.now asks.now) }
{
    let alloc = rt.alloc();
    let (lists, origins) = by_zones(alloc, net, trips, asks)?;
    let search = Search {
        net,
        costs,
        trips,
        asks,
        lists,
        origins,
    };
    let zones = search.zones(alloc)?;
    let shares = share_count(alloc, net, costs.times(), pool.workers())? as usize;
    pool.shrink(shares);
    let mut told = Told::none(alloc, trips.len())?;
    let groups = Groups {
        search: &search,
        zones: &zones,
    };
    tell_shares(rt, &groups, shares, pool, &mut told)?;
    Ok(told)
}
