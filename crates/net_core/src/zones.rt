// The zones of nodes.
ghost use Rattle.std.specs.Prelude.{◌≡◌, OnOk, IfOk};
ghost use Rattle.net_core.specs.Network.{noted, zones};

use crate::ids::Ids;
use crate::rows::NodeRow;
use std::alloc::{AllocError, Global};

/// The zones of nodes, in the order of their first appearance.
#[tactic(auto, unfolding(crate::specs::Network::zones))]
pub(crate) fn zones_of(alloc: Global, nodes: &[NodeRow]) -> Result<Ids, AllocError>
    ensures { IfOk result (λ found. found ≡ zones nodes.now) }
{
    let mut found = Ids::new(alloc);
    for node in nodes {
        note(&mut found, node.zone)?;
    }
    Ok(found)
}

// Adds a zone where it isn't there.
fn note(found: &mut Ids, zone: Option<u64>) -> Result<(), AllocError>
    ensures { OnOk result (found.new ≡ noted found.old zone) }
{
    match zone {
        Some(zone) => match found.place(zone) {
            Some(_) => Ok(()),
            None => {
                found.add(zone)?;
                Ok(())
            }
        },
        None => Ok(()),
    }
}
