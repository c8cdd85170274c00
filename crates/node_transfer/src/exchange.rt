//! Mail between the list of all links and a node's cell.
//!
//! A node takes part in a step twice, by its halves. Each is one call of [`do_half`]. A transfer is
//! told the rooms of the out-links, and writes the batches of those that are entered; a gather
//! takes the batch of each in-link where it stands, and tells the room there. It changes the mail
//! of those links alone, so the nodes may come in any order.
ghost use Rattle.cell_stages.specs.Contents.{IsStep, away, batch_of, cell_after, cell_before};
ghost use Rattle.cell_stages.specs.Contents.{room_of};
ghost use Rattle.dta_model.specs.Lent.{plan_of};
ghost use Rattle.dta_model.specs.Plans.{ins as ins_of, outs as outs_of};
ghost use Rattle.node_transfer.specs.Exchange.{AreMail, ArePut};
ghost use Rattle.node_transfer.specs.Halves.{IsHalf, leaving_cell, left_mail, links_of};
ghost use Rattle.node_transfer.specs.Halves.{taken_mail, taking_cell};
ghost use Rattle.std.specs.Prelude.{◌≡◌, length, suc};

use crate::{Half, HalfStep, NodeCell};
use cell_stages::Mail;
use dta_model::Loading;
use net_core::NodeNo;

/// A half of a node's step: it takes the mail of its links, and leaves other mail in its place.
pub fn do_half(loading: &Loading, half: HalfStep, cell: &mut NodeCell, mail: &mut [Mail])
    requires step { IsHalf (plan_of loading.now) half }
    requires count { length mail.old ≡ length loading.now.net.now.links }
    requires cell { cell.old ≡ taking_cell (plan_of loading.now) half away }
    requires mail { AreMail (taken_mail (plan_of loading.now) half)
        (links_of (plan_of loading.now) half) mail.old }
    ensures cell { cell.new ≡ leaving_cell (plan_of loading.now) half away }
    ensures mail { ArePut (left_mail (plan_of loading.now) half)
        (links_of (plan_of loading.now) half) mail.old mail.new }
{
    let HalfStep { node, step, .. } = half;
    match half.half {
        Half::Transfer => transfer(loading, node, step, cell, mail),
        Half::Gather => gather(loading, node, step, cell, mail),
    }
}

// The transfer of a node's step.
fn transfer(loading: &Loading, node: NodeNo, step: u32, cell: &mut NodeCell, mail: &mut [Mail])
    requires step { IsStep (plan_of loading.now) node.0 step }
    requires count { length mail.old ≡ length loading.now.net.now.links }
    requires cell { cell.old ≡ cell_before (plan_of loading.now) node.0 step away away }
    requires mail { AreMail (room_of (plan_of loading.now) step)
        (outs_of (plan_of loading.now) node.0) mail.old }
    ensures cell { cell.new ≡ cell_after (plan_of loading.now) node.0 step away away }
    ensures mail { ArePut (batch_of (plan_of loading.now) step)
        (outs_of (plan_of loading.now) node.0) mail.old mail.new }
{
    let outs = loading.net.outs(node);
    for place in 0..outs.len() {
        cell.tell_room(place, &mail[outs[place].0 as usize]);
    }
    cell.transfer(step);
    for place in 0..outs.len() {
        cell.send_batch(place, &mut mail[outs[place].0 as usize]);
    }
}

// The gather of a node's step.
fn gather(loading: &Loading, node: NodeNo, step: u32, cell: &mut NodeCell, mail: &mut [Mail])
    requires step { IsStep (plan_of loading.now) node.0 step }
    requires count { length mail.old ≡ length loading.now.net.now.links }
    requires cell { cell.old ≡ cell_after (plan_of loading.now) node.0 step away away }
    requires mail { AreMail (batch_of (plan_of loading.now) step)
        (ins_of (plan_of loading.now) node.0) mail.old }
    ensures cell { cell.new ≡ cell_before (plan_of loading.now) node.0 (suc step) away away }
    ensures mail { ArePut (room_of (plan_of loading.now) (suc step))
        (ins_of (plan_of loading.now) node.0) mail.old mail.new }
{
    let ins = loading.net.ins(node);
    for place in 0..ins.len() {
        cell.gather_link(place, &mut mail[ins[place].0 as usize], step);
    }
}
