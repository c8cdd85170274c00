// Mail at its place at a link.
ghost use Rattle.node_transfer.specs.Places.{in_mailed, mail_of_in, mail_of_out, out_mailed};
ghost use Rattle.node_transfer.specs.Exchange.{IsKept, is_room};
ghost use Rattle.std.specs.Prelude.{◌≡◌, ◌<◌, length, slice_get, IsSome, IsSomeAnd, Some};
ghost use Rattle.std.specs.Prelude.{option_map, true};

use cell_stages::{InLink, Mail, OutLink};

/// Puts a mail into the place of an out-link, from which the mail is away: it has nothing to drop.
pub fn put_out_mail(outs: &mut [OutLink], place: usize, mail: Mail)
    requires there { place < length outs.old }
    requires away { option_map mail_of_out (slice_get outs.old place) ≡ Some Mail.Away }
    ensures { outs.new ≡ out_mailed place mail outs.old }
{
    std::mem::forget(std::mem::replace(&mut outs[place].mail, mail));
}

/// Puts a mail into the place of an in-link, from which the mail is away: it has nothing to drop.
pub fn put_in_mail(ins: &mut [InLink], place: usize, mail: Mail)
    requires there { place < length ins.old }
    requires away { option_map mail_of_in (slice_get ins.old place) ≡ Some Mail.Away }
    ensures { ins.new ≡ in_mailed place mail ins.old }
{
    std::mem::forget(std::mem::replace(&mut ins[place].mail, mail));
}

/// Takes the mail out of the place of an out-link.
pub fn swap_out_mail(outs: &mut [OutLink], place: usize) -> Mail
    requires { place < length outs.old }
    ensures mail { option_map mail_of_out (slice_get outs.old place) ≡ Some result }
    ensures away { outs.new ≡ out_mailed place Mail.Away outs.old }
{
    std::mem::replace(&mut outs[place].mail, Mail::Away)
}

/// Takes the mail out of the place of an in-link.
pub fn swap_in_mail(ins: &mut [InLink], place: usize) -> Mail
    requires { place < length ins.old }
    ensures mail { option_map mail_of_in (slice_get ins.old place) ≡ Some result }
    ensures away { ins.new ≡ in_mailed place Mail.Away ins.old }
{
    std::mem::replace(&mut ins[place].mail, Mail::Away)
}

/// Puts the room that a mail tells into the place of an out-link.
pub fn copy_room(outs: &mut [OutLink], place: usize, mail: &Mail)
    requires there { IsSome (option_map mail_of_out (slice_get outs.old place)) }
    requires room { is_room mail.now ≡ true }
    ensures { outs.new ≡ out_mailed place mail.now outs.old }
{
    let Mail::Room { step, room } = mail else {
        unreachable!()
    };
    let told = Mail::Room {
        step: *step,
        room: *room,
    };
    std::mem::forget(std::mem::replace(&mut outs[place].mail, told));
}

/// Writes the batch of an out-link over its mail. Where there is none that mail stays, and is the
/// one in the place of the link.
pub fn give_batch(outs: &mut [OutLink], place: usize, mail: &mut Mail)
    requires { IsSomeAnd (option_map mail_of_out (slice_get outs.old place))
        (λ there. IsKept there mail.old) }
    ensures mail { option_map mail_of_out (slice_get outs.old place) ≡ Some mail.new }
    ensures away { outs.new ≡ out_mailed place Mail.Away outs.old }
{
    let there = &mut outs[place].mail;
    if let Mail::Batch { .. } = &*there {
        *mail = std::mem::replace(there, Mail::Away);
    } else {
        std::mem::forget(std::mem::replace(there, Mail::Away));
    }
}
