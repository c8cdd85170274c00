// Least times between all zones of a network.
ghost use Rattle.std.specs.Prelude.{◌≡◌, length, IfOk};
ghost use Rattle.dta_model.specs.LinkTimes.{time_at};
ghost use Rattle.skims.specs.Skim.{IsSkim};

use crate::entries::entries_of;
use crate::leasts::LeastTimes;
use crate::skim_entry::Skim;
use crate::zones::zone_ids;
use link_times::LinkTimes;
use net_core::{Memory, Net};
use std::alloc::Global;

/// The skim of a network by a table of link times: for each ordered pair of different zones, in
/// the order of their first appearance, and for each start in the order given, the least steps, or
/// that there is no walk. From the table's horizon on links take their free-flow steps.
pub fn skim(alloc: Global, net: &Net, times: &LinkTimes, starts: &[u32]) -> Result<Skim, Memory>
    requires { length times.now.free ≡ length net.now.links }
    ensures { IfOk result (IsSkim (time_at times.now) net.now starts.now) }
{
    let zones = zone_ids(alloc, net)?;
    let leasts = LeastTimes::of(alloc, net, times, starts)?;
    let entries = entries_of(alloc, &leasts, &zones, starts)?;
    Ok(Skim::of(entries))
}
