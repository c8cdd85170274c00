// The numbers of zones by their names.
ghost use Rattle.std.specs.Prelude.{◌≡◌, length, All, IfOk};
ghost use Rattle.net_core.specs.Network.{zone_number};
ghost use Rattle.time_routes.specs.Tell.{IsNamed};
ghost use Rattle.labels.specs.States.Onwards.{zone_or_none};

use labels::or_none;
use net_core::{Memory, Net};
use std::alloc::Global;

// So many zones that were looked up last are kept, each at the place that its name gives. Most
// vehicles find theirs there, so that a zone is looked up once for many of them.
const PLACES: u64 = 1024;

/// The name of a zone and its number, or the one that stands for none.
#[derive(Clone, Copy, Drop)]
pub(crate) struct NamedZone {
    pub(crate) name: u64,
    pub(crate) number: u32,
}

// The zone of a name.
fn named(net: &Net, name: u64) -> NamedZone
    ensures name { result.name ≡ name }
    ensures is { IsNamed net.now result }
{
    NamedZone {
        name,
        number: or_none(net.zone_number(name)),
    }
}

/// Zones to begin with.
pub(crate) fn no_zones(alloc: Global, net: &Net) -> Result<Vec<NamedZone>, Memory>
    ensures many { IfOk result (λ seen. length seen.items ≡ PLACES) }
    ensures right { IfOk result (λ seen. All (IsNamed net.now) seen.items) }
{
    vec![in alloc; named(net, 0); PLACES as usize]
}

/// The number of the zone of a name, or the one that stands for none.
pub(crate) fn number_of(net: &Net, seen: &mut Vec<NamedZone>, name: u64) -> u32
    requires many { length seen.old.items ≡ PLACES }
    requires right { All (IsNamed net.now) seen.old.items }
    ensures many { length seen.new.items ≡ PLACES }
    ensures right { All (IsNamed net.now) seen.new.items }
    ensures is { result ≡ zone_or_none (zone_number net.now name) }
{
    let place = (name % PLACES) as usize;
    if seen[place].name != name {
        seen[place] = named(net, name);
    }
    seen[place].number
}
