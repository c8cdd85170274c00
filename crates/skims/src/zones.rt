// The identifiers of a network's zones.
ghost use Rattle.std.specs.Prelude.{◌≡◌, IfOk, OnOk};
ghost use Rattle.net_core.specs.Network.{noted, zones};

use net_core::{Ids, Memory, Net, NodeNo};
use std::alloc::Global;

// Adds a zone where it isn't there.
fn note(found: &mut Ids, ids: &mut Vec<u64>, zone: Option<u64>) -> Result<(), Memory>
    requires { ids.old.items ≡ found.old }
    ensures found { OnOk result (found.new ≡ noted found.old zone) }
    ensures ids { OnOk result (ids.new.items ≡ found.new) }
{
    match zone {
        Some(zone) => match found.place(zone) {
            Some(_) => Ok(()),
            None => {
                found.add(zone)?;
                ids.push(zone)?;
                Ok(())
            }
        },
        None => Ok(()),
    }
}

/// The identifiers of a network's zones, in the order of their first appearance.
pub(crate) fn zone_ids(alloc: Global, net: &Net) -> Result<Vec<u64>, Memory>
    ensures { IfOk result (λ ids. ids.items ≡ zones net.now.nodes) }
{
    let mut found = Ids::new(alloc);
    let mut ids = Vec::new(alloc);
    for node in 0..net.node_count() {
        note(&mut found, &mut ids, net.node(NodeNo(node)).zone)?;
    }
    Ok(ids)
}
