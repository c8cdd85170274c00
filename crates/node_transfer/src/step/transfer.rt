// One step of a node's links.
ghost use Rattle.std.specs.Prelude.{◌≡◌, ◌≤◌, ◌%◌, cond, nat_eq};
ghost use Rattle.node_transfer.specs.Inside.Cells.{transferred, CanTransfer};

use crate::step::in_link::pass_links;
use crate::step::out_link::{close_outs, open_outs};
use cell_stages::{InLink, OutLink};
use link_queues::Line;

/// Moves the vehicles of one step.
pub fn transfer_links(ins: &mut [InLink], outs: &mut [OutLink], arrived: &mut Line, step: u32)
    requires { CanTransfer
        (record { ins = ins.old; outs = outs.old; arrived = arrived.old }) }
    ensures { transferred step
        (record { ins = ins.old; outs = outs.old; arrived = arrived.old })
        ≡ record { ins = ins.new; outs = outs.new; arrived = arrived.new } }
{
    open_outs(outs, step);
    let start = start_place(step, ins.len());
    let (front, back) = ins.split_at_mut(start);
    pass_links(back, outs, arrived, step);
    pass_links(front, outs, arrived, step);
    close_outs(outs, step);
}

// The place of the in-link that begins in a step.
fn start_place(step: u32, count: usize) -> usize
    ensures value { result ≡ cond (nat_eq count 0) 0 (step % count) }
    ensures within { result ≤ count }
{
    if count == 0 { 0 } else { step as usize % count }
}
