// The counts of a node's cell are added to those of the nodes before it.
ghost use Rattle.dta_model.specs.Lent.{plan_of};
ghost use Rattle.dta_model.specs.Sound.{IsSound};
ghost use Rattle.cell_stages.specs.Contents.{away, cell_before};
ghost use Rattle.phase_claims.specs.PlacesCounted.{counted_in, firsts_on};
ghost use Rattle.std.specs.Prelude.{◌≡◌, ◌<◌, suc, length};

use crate::noted_cell::NotedCell;
use dta_model::{Eight, Loading};
use net_core::NodeNo;

/// Adds the counts of a node's cell after so many steps. It looks at no vehicle.
pub(crate) fn add_cell(
    loading: &Loading,
    node: NodeNo,
    steps: u32,
    cell: &NotedCell,
    eight: &mut Eight,
)
    requires sound { IsSound (plan_of loading.now) }
    requires node { node.0 < length (plan_of loading.now).net.nodes }
    requires cell { cell.now ≡ cell_before (plan_of loading.now) node.0 steps away away }
    requires eight { eight.old ≡ counted_in (plan_of loading.now) steps node.0 }
    ensures { eight.new ≡ counted_in (plan_of loading.now) steps (suc node.0) }
{
    let counts = cell.counts(steps);
    eight.waiting += counts.waiting;
    eight.running += counts.running;
    eight.arrived += counts.arrived;
    add_links(loading, node, steps, cell, &mut eight.first);
}

// Adds the vehicles on those of the first four links that lead to the node. They are at the first
// places of its in-links, since these are in order.
fn add_links(loading: &Loading, node: NodeNo, steps: u32, cell: &NotedCell, first: &mut [u64; 4])
    requires node { node.0 < length (plan_of loading.now).net.nodes }
    requires cell { cell.now ≡ cell_before (plan_of loading.now) node.0 steps away away }
    requires first { first.old ≡ firsts_on (plan_of loading.now) steps node.0 }
    ensures { first.new ≡ firsts_on (plan_of loading.now) steps (suc node.0) }
{
    let ins = loading.net.ins(node);
    for place in 0..ins.len() {
        let link = ins[place].0 as usize;
        if link >= first.len() {
            return;
        }
        first[link] = cell.on_link(place);
    }
}
