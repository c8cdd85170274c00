// Cells at the start of a loading.
ghost use Rattle.dta_model.specs.Lent.{plan_of};
ghost use Rattle.dta_model.specs.Plans.{outs as outs_of};
ghost use Rattle.dta_model.specs.Sound.{IsSound};
ghost use Rattle.net_core.specs.Network.{numbers_below};
ghost use Rattle.node_transfer.specs.Inside.StartCells.{lines_left, taken_cell, taken_cells};
ghost use Rattle.std.specs.Prelude.{◌≡◌, ◌<◌, IfOk, OnOk, length};

use crate::cell::NodeCell;
use crate::start::links::{start_ins, start_outs};
use dta_model::Loading;
use link_queues::Line;
use net_core::{Memory, NodeNo};
use std::alloc::Global;

/// The cell of each node before the first step. The waiting lines are moved into them.
#[tactic(auto, using(crate::proofs::OfStart::Starts::start_steps))]
pub fn start_cells(
    alloc: Global,
    loading: &Loading,
    lines: &mut [Line],
) -> Result<Vec<NodeCell>, Memory>
    requires sound { IsSound (plan_of loading.now) }
    requires lines { length lines.old ≡ length loading.now.net.now.links }
    ensures { IfOk result
        (λ cells. cells.items
        ≡ taken_cells (plan_of loading.now) lines.old
        (numbers_below (length loading.now.net.now.nodes))) }
{
    let mut cells = Vec::new(alloc);
    for n in 0..loading.net.node_count() {
        let cell = start_cell(alloc, loading, NodeNo(n), lines)?;
        cells.push(cell)?;
    }
    Ok(cells)
}

// The cell of a node before the first step.
fn start_cell(
    alloc: Global,
    loading: &Loading,
    node: NodeNo,
    lines: &mut [Line],
) -> Result<NodeCell, Memory>
    requires sound { IsSound (plan_of loading.now) }
    requires node { node.0 < length loading.now.net.now.nodes }
    requires lines { length lines.old ≡ length loading.now.net.now.links }
    ensures cell { IfOk result (λ cell. cell ≡ taken_cell (plan_of loading.now) lines.old node.0) }
    ensures left { OnOk result (lines.new
        ≡ lines_left lines.old (outs_of (plan_of loading.now) node.0)) }
    ensures count { length lines.new ≡ length lines.old }
{
    let outs = loading.net.outs(node);
    let out_links = start_outs(alloc, loading, outs, lines)?;
    let in_links = start_ins(alloc, loading, loading.net.ins(node), outs)?;
    let cell = NodeCell::of(alloc, in_links, out_links)?;
    Ok(cell)
}
