// An in-link of a node.
ghost use Rattle.std.specs.Prelude.{◌≡◌, ◌+◌, ◌++◌, ◌-◌, ◌<◌, ◌≤◌, length, map, All, Option};
ghost use Rattle.std.specs.Prelude.{IfSome, IsSomeAnd, None, Some, slice_get};
ghost use Rattle.cell_stages.specs.Contents.{tells, told};
ghost use Rattle.std.specs.List.{sum_by};
ghost use Rattle.node_transfer.specs.Inside.Pass.{CanPass, total, out_links, waitings, held};
ghost use Rattle.node_transfer.specs.Inside.Cells.{passed_link, passed_links};
ghost use Rattle.node_transfer.specs.Inside.Cells.{CanCross, IsShut, cell_total, CanGather};
ghost use Rattle.node_transfer.specs.Gathered.{grown_by, mail_line, room_after, room_told};
ghost use Rattle.node_transfer.specs.Gathered.{gathered_link};
ghost use Rattle.node_transfer.specs.Places.{changed_at};

use crate::rest::head_step;
use crate::step::pass::{advance, close_exit, is_kept_out, open_exit};
use cell_stages::{InLink, Mail, OutLink};
use dta_model::MOST_HORIZON;
use link_queues::{Leavings, Line, MOST_RIDERS};

/// Moves the heads of an in-link that may move in the step, and notes how many left it. Where its
/// first vehicle isn't ready, or nobody may enter the link that it goes to, no allowance is
/// granted.
#[inline(always)]
pub fn pass_link(link: &mut InLink, outs: &mut [OutLink], arrived: &mut Line, step: u32)
    requires can { CanPass link.old.line outs.old arrived.old }
    requires shut { IsShut link.old.exit }
    ensures kept { CanPass link.new.line outs.new arrived.new }
    ensures links { out_links outs.new ≡ out_links outs.old }
    ensures waits { waitings outs.new ≡ waitings outs.old }
    ensures total { total link.new.line outs.new arrived.new
        ≤ total link.old.line outs.old arrived.old }
    ensures shut { IsShut link.new.exit }
    ensures done { passed_link step link.old outs.old arrived.old
        ≡ record { link = link.new; outs = outs.new; arrived = arrived.new } }
{
    if step < head_step(link) || is_kept_out(&link.line, outs) {
        link.left.push(0);
        return;
    }
    let count = link.line.len();
    open_exit(&mut link.exit, step);
    while advance(&mut link.line, &mut link.exit, outs, arrived, step) {}
    close_exit(&mut link.exit);
    link.left.push(count.saturating_sub(link.line.len()));
}

/// Moves the heads of all in-links, in order.
pub fn pass_links(ins: &mut [InLink], outs: &mut [OutLink], arrived: &mut Line, step: u32)
    requires { CanCross ins.old outs.old arrived.old }
    ensures kept { CanCross ins.new outs.new arrived.new }
    ensures links { out_links outs.new ≡ out_links outs.old }
    ensures waits { waitings outs.new ≡ waitings outs.old }
    ensures total { cell_total ins.new outs.new arrived.new
        ≤ cell_total ins.old outs.old arrived.old }
    ensures count { length ins.new ≡ length ins.old }
    ensures done { passed_links step ins.old outs.old arrived.old
        ≡ record { ins = ins.new; outs = outs.new; arrived = arrived.new } }
{
    for i in 0..ins.len() {
        pass_link(&mut ins[i], outs, arrived, step);
    }
}

/// Puts those who come with a mail last in the line, and tells there the room that is left for the
/// next step, where it isn't told already.
fn gather_mail(line: &mut Line, left: &Leavings, storage: Option<u32>, mail: &mut Mail, step: u32)
    requires step { step < MOST_HORIZON }
    requires fits { length line.old + length (mail_line mail.old) ≤ MOST_RIDERS }
    ensures line { line.new ≡ line.old ++ mail_line mail.old }
    ensures mail { mail.new
        ≡ told (step + 1) (room_after storage line.new left.now) mail.old }
{
    if let Mail::Batch { line: batch, .. } = &mut *mail {
        line.append(batch);
    }
    let room = room_left(line, left, storage);
    if !tells_room(mail, room) {
        let told = Mail::Room {
            step: step + 1,
            room,
        };
        // The riders of the batch are in the line now, so that it has nothing to drop.
        std::mem::forget(std::mem::replace(mail, told));
    }
}

/// Gathers on an in-link over the mail in its place.
pub fn gather_link(link: &mut InLink, step: u32)
    requires step { step < MOST_HORIZON }
    requires fits { length link.old.line + length (mail_line link.old.mail) ≤ MOST_RIDERS }
    ensures { link.new ≡ gathered_link step link.old }
{
    gather_mail(
        &mut link.line,
        &link.left,
        link.storage,
        &mut link.mail,
        step,
    );
}

/// Gathers on the in-link of a place over a mail.
pub fn gather_at(ins: &mut [InLink], place: usize, mail: &mut Mail, step: u32)
    requires step { step < MOST_HORIZON }
    requires fits { IsSomeAnd (slice_get ins.old place)
        (λ link. length link.line + length (mail_line mail.old) ≤ MOST_RIDERS) }
    ensures link { ins.new ≡ changed_at (grown_by mail.old) place ins.old }
    ensures mail { IfSome (slice_get ins.old place)
        (λ link. mail.new ≡ room_told step mail.old link) }
{
    let link = &mut ins[place];
    gather_mail(&mut link.line, &link.left, link.storage, mail, step);
}

/// Whether a mail tells this room.
pub fn tells_room(mail: &Mail, room: Option<u32>) -> bool
    ensures { result ≡ tells room mail.now }
{
    let Mail::Room { room: there, .. } = mail else {
        return false;
    };
    match (*there, room) {
        (None, None) => true,
        (Some(there), Some(room)) => there == room,
        _ => false,
    }
}

/// The room that a storage leaves beside those on the link and those who left it lately; none is
/// told where there is no bound.
pub fn room_left(line: &Line, left: &Leavings, storage: Option<u32>) -> Option<u32>
    ensures { result ≡ room_after storage line.now left.now }
{
    match storage {
        None => None,
        Some(storage) => {
            let taken = left.total().saturating_add(line.len() as u64);
            Some((storage as u64).saturating_sub(taken) as u32)
        }
    }
}

/// Gathers on all in-links.
pub fn gather_links(ins: &mut [InLink], step: u32)
    requires step { step < MOST_HORIZON }
    requires can { All CanGather ins.old }
    ensures { ins.new ≡ map (gathered_link step) ins.old }
{
    for i in 0..ins.len() {
        gather_link(&mut ins[i], step);
    }
}
