// The link times that rows tell.
ghost use Rattle.std.specs.Prelude.{◌≡◌, ◌≤◌, length, map, IfOk};
ghost use Rattle.skims.specs.GivenTimes.{AreRowsOf, table_given};

use crate::time_rows::{TimeRow, TimeRows};
use link_times::LinkTimes;
use net_core::{LinkRow, Memory, Net};
use std::alloc::Global;

// The free-flow steps of links.
fn free_steps(alloc: Global, links: &[LinkRow]) -> Result<Vec<u32>, Memory>
    ensures { IfOk result (λ free. free.items ≡ map (λ link. link.free) links.now) }
{
    let mut free = Vec::with_capacity(alloc, links.len())?;
    for link in links {
        free.push(link.free)?;
    }
    Ok(free)
}

// The travel steps of rows.
fn travel_steps(alloc: Global, rows: &[TimeRow]) -> Result<Vec<u32>, Memory>
    ensures { IfOk result (λ times. times.items ≡ map (λ row. row.travel) rows.now) }
{
    let mut times = Vec::with_capacity(alloc, rows.len())?;
    for row in rows {
        times.push(row.travel)?;
    }
    Ok(times)
}

/// The table of a network's link times that rows tell, with buckets of so many steps up to a
/// horizon: their travel steps and the free-flow steps of the links, and no visits counted.
pub fn times_of(
    alloc: Global,
    net: &Net,
    rows: &TimeRows,
    bucket: u32,
    horizon: u32,
) -> Result<LinkTimes, Memory>
    requires bucket { 1 ≤ bucket }
    requires horizon { 1 ≤ horizon }
    requires rows { AreRowsOf net.now bucket horizon rows.now }
    ensures table { IfOk result (λ times. times ≡ table_given net.now bucket horizon rows.now) }
    ensures links { IfOk result (λ times. length times.free ≡ length net.now.links) }
{
    let _sound = net.link_count();
    let free = free_steps(alloc, net.links())?;
    let times = travel_steps(alloc, rows.as_slice())?;
    Ok(LinkTimes::given(bucket, horizon, free, times))
}
