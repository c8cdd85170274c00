// An out-link of a node.
ghost use Rattle.std.specs.Prelude.{◌≡◌, ◌+◌, ◌-◌, ◌<◌, ◌≤◌, length, map, All, IsTrue, false, None};
ghost use Rattle.std.specs.Prelude.{Some};
ghost use Rattle.std.specs.List.Sorted.{IsNonDecreasing};
ghost use Rattle.node_transfer.specs.Inside.Pass.{place_of, out_links, held};
ghost use Rattle.node_transfer.specs.Inside.Outs.{released, capped_by, opened_out, admitted};
ghost use Rattle.node_transfer.specs.Inside.Outs.{closed_out};
ghost use Rattle.node_transfer.specs.Inside.Cells.{UnderWay};

use capacity_credits::Meter;
use cell_stages::{Mail, OutLink};
use link_queues::{Line, MOST_RIDERS};
use net_core::LinkNo;

/// The place of a link among out-links that stand in order. Where their numbers come one after
/// another, the number of the first one tells it.
pub fn place_to(outs: &[OutLink], link: LinkNo) -> usize
    requires order { IsNonDecreasing (out_links outs.now) }
    requires there { place_of link.0 (out_links outs.now) < length outs.now }
    ensures { result ≡ place_of link.0 (out_links outs.now) }
{
    let guess = link.0.saturating_sub(outs[0].link.0) as usize;
    if guess < outs.len() && outs[guess].link.0 == link.0 {
        if guess == 0 || outs[guess - 1].link.0 < link.0 {
            return guess;
        }
    }
    outs.partition_point(|out| out.link.0 < link.0)
}

/// Moves the first that waits, where it is due, and says whether it did.
#[tactic(auto, using(crate::proofs::OfStep::Outs::release_steps))]
pub fn release_one(later: &mut Line, due: &mut Line, step: u32) -> bool
    requires { length later.old + length due.old ≤ MOST_RIDERS }
    ensures kept { length later.new + length due.new ≡ length later.old + length due.old }
    ensures goes { released step later.old due.old ≡ released step later.new due.new }
    ensures shorter { IsTrue result → length later.new + 1 ≡ length later.old }
    ensures done { result ≡ false → released step later.new due.new
        ≡ record { later = later.new; due = due.new } }
{
    let is_due = match later.front() {
        None => return false,
        Some(rider) => rider.departure() <= step,
    };
    if is_due {
        later.shift_front_to(due);
    }
    is_due
}

/// Moves all that are due.
pub fn release(later: &mut Line, due: &mut Line, step: u32)
    requires { length later.old + length due.old ≤ MOST_RIDERS }
    ensures { released step later.old due.old ≡ record { later = later.new; due = due.new } }
{
    while release_one(later, due, step) {}
}

/// Caps an allowance by the room that a mail tells.
pub fn cap_by(meter: &mut Meter, mail: &Mail)
    ensures { meter.new ≡ capped_by mail.now meter.old }
{
    match mail {
        Mail::Room { room, .. } => match room {
            None => {}
            Some(room) => meter.cap(*room),
        },
        _ => {}
    }
}

/// Grants an out-link its allowance, within its room, and finds who is due.
pub fn open_out(out: &mut OutLink, step: u32)
    requires { held out.old ≤ MOST_RIDERS }
    ensures { out.new ≡ opened_out step out.old }
{
    out.inflow.open(step);
    cap_by(&mut out.inflow, &out.mail);
    release(&mut out.waiting.later, &mut out.waiting.due, step);
}

/// Admits the first that is due, where one may enter, and says whether it did.
#[tactic(auto, using(crate::proofs::OfStep::Outs::admit_steps))]
pub fn admit_one(due: &mut Line, batch: &mut Line, meter: &mut Meter, step: u32) -> bool
    requires fits { length due.old + length batch.old ≤ MOST_RIDERS }
    requires under_way { All (λ r. r.arrival ≡ None) due.old }
    ensures kept { length due.new + length batch.new ≡ length due.old + length batch.old }
    ensures still { All (λ r. r.arrival ≡ None) due.new }
    ensures goes { admitted step due.old batch.old meter.old
        ≡ admitted step due.new batch.new meter.new }
    ensures shorter { IsTrue result → length due.new + 1 ≡ length due.old }
    ensures done { result ≡ false → admitted step due.new batch.new meter.new
        ≡ record { due = due.new; batch = batch.new; meter = meter.new } }
{
    if due.len() > 0 && meter.left() > 0 {
        due.move_front_to(batch, step);
        meter.pass();
        true
    } else {
        false
    }
}

/// Admits those that are due while the allowance lasts.
pub fn admit(due: &mut Line, batch: &mut Line, meter: &mut Meter, step: u32)
    requires fits { length due.old + length batch.old ≤ MOST_RIDERS }
    requires under_way { All (λ r. r.arrival ≡ None) due.old }
    ensures { admitted step due.old batch.old meter.old
        ≡ record { due = due.new; batch = batch.new; meter = meter.new } }
{
    while admit_one(due, batch, meter, step) {}
}

/// Admits those that wait, and writes the batch, if anybody enters the link.
pub fn close_out(out: &mut OutLink, step: u32)
    requires fits { held out.old ≤ MOST_RIDERS }
    requires under_way { All (λ r. r.arrival ≡ None) out.old.waiting.due }
    ensures { out.new ≡ closed_out step out.old }
{
    admit(&mut out.waiting.due, &mut out.batch, &mut out.inflow, step);
    out.inflow.close();
    if out.batch.len() > 0 {
        out.mail = Mail::Batch {
            step,
            line: out.batch.take_all(),
        };
    }
}

/// Opens all out-links.
pub fn open_outs(outs: &mut [OutLink], step: u32)
    requires { All (λ o. held o ≤ MOST_RIDERS) outs.old }
    ensures { outs.new ≡ map (opened_out step) outs.old }
{
    for i in 0..outs.len() {
        open_out(&mut outs[i], step);
    }
}

/// Closes all out-links.
pub fn close_outs(outs: &mut [OutLink], step: u32)
    requires fits { All (λ o. held o ≤ MOST_RIDERS) outs.old }
    requires under_way { All (λ o. All UnderWay o.waiting.due) outs.old }
    ensures { outs.new ≡ map (closed_out step) outs.old }
{
    for i in 0..outs.len() {
        close_out(&mut outs[i], step);
    }
}
