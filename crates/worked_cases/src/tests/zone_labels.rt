// Labels of one zone alone.
ghost use Rattle.std.specs.Prelude.{◌≡◌, IfOk, length};

use crate::a_loop_that_pays;
use labels::Labels;
use link_times::LinkTimes;
use net_core::{Memory, Net, ZoneNo};
use std::alloc::Global;
use std::test::Fail;
use trip_costs::WalkCosts;

// The free-flow times of a network.
pub(super) fn free(alloc: Global, net: &Net) -> Result<LinkTimes, Memory>
    ensures { IfOk result (λ times. length times.free ≡ length net.now.links) }
{
    let times = LinkTimes::free(alloc, net, 50, 100)?;
    Ok(times)
}

// Whether the labels of one zone alone tell of the way to it.
fn zone_tells(alloc: Global, net: &Net) -> Result<bool, Memory> {
    let times = free(alloc, net)?;
    if net.zone_count() <= 1 {
        return Ok(false);
    }
    let labels = Labels::to_zone(alloc, net, WalkCosts::Links(&times), ZoneNo(1))?;
    let walk = labels.walk(alloc, ZoneNo(0), 95)?;
    Ok(labels.least(ZoneNo(0), 95) == Some(20) && walk.is_some())
}

#[test]
fn labels_of_a_zone(rt: HostRuntime) -> Result<(), Fail> {
    let net = a_loop_that_pays(rt.alloc())?;
    assert!(rt; zone_tells(rt.alloc(), &net)?);
    Ok(())
}
