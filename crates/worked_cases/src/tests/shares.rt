// Shares of destinations, none of which is left to be searched after them.
ghost use Rattle.dta_model.specs.Sound.{AreTrips};
ghost use Rattle.std.specs.Prelude.{◌≤◌};

use super::tables::UNITS;
use super::zone_labels::free;
use demand::read_demand;
use dta_model::Trip;
use gmns_tables::read_net;
use net_core::{Memory, Net};
use std::alloc::Global;
use std::test::Fail;
use std::thread::Threads;
use time_routes::{Ask, TablePool, tell_by_shares};
use trip_costs::WalkCosts;
use vehicle_release::release;

// They are five groups.
const ZONES: u64 = 40;

// The node, link and demand table of zones in a ring, with a vehicle from each to the next.
fn ring(alloc: Global) -> Result<(String, String, String), Memory> {
    let mut node = String::from_str(alloc, "node_id,zone_id\n")?;
    let mut link = String::from_str(alloc, "link_id,from_node_id,to_node_id,length\n")?;
    let mut demand = String::from_str(alloc, "o_zone_id,d_zone_id,volume\n")?;
    for zone in 1..=ZONES {
        let next = zone % ZONES + 1;
        node.push_str(&format!(in alloc; "{zone},{zone}\n")?)?;
        link.push_str(&format!(in alloc; "{zone},{zone},{next},100\n")?)?;
        link.push_str(&format!(in alloc; "{},{next},{zone},100\n", ZONES + zone)?)?;
        demand.push_str(&format!(in alloc; "{zone},{next},1\n")?)?;
    }
    Ok((node, link, demand))
}

// Whether each vehicle has a walk, and the shares of so many workers leave no group.
fn leave_none<R: AllocGlobal + Threads + Sync>(
    rt: &R,
    net: &Net,
    trips: &[Trip],
    workers: u32,
) -> Result<bool, Memory>
    requires trips { AreTrips trips.now }
    requires workers { 1 ≤ workers }
{
    let alloc = rt.alloc();
    let times = free(alloc, net)?;
    let ask = Ask {
        least: true,
        walk: true,
    };
    let asks = Vec::from_elem(alloc, ask, trips.len())?;
    let pool = TablePool::new(alloc, workers);
    let told = tell_by_shares(rt, net, WalkCosts::Links(&times), trips, &asks, &pool)?;
    Ok(told.walks.iter().all(|walk| walk.is_some()) && pool.left_groups() == 0)
}

#[test]
fn shares_leave_no_group(rt: HostRuntime) -> Result<(), Fail> {
    let alloc = rt.alloc();
    let (node, link, demand) = ring(alloc)?;
    let net = read_net(alloc, node.as_bytes(), link.as_bytes(), None, &UNITS).expect(&rt, "net");
    let cells = read_demand(alloc, demand.as_bytes(), 10).expect(&rt, "demand");
    let trips = release(alloc, &cells).expect(&rt, "trips");
    assert!(rt; trips.len() as u64 == ZONES);
    assert!(rt; leave_none(&rt, &net, &trips, 1)?);
    assert!(rt; leave_none(&rt, &net, &trips, 2)?);
    assert!(rt; leave_none(&rt, &net, &trips, 4)?);
    Ok(())
}
