// The text of counts.
ghost use Rattle.std.specs.Prelude.{◌≡◌, ◌<◌, ◌≤◌, ◌+◌, ◌*◌, ◌++◌, length, min, All, OnOk, OnErr};
ghost use Rattle.desk_io.specs.declared.desk.Output.TheVariants as output;
ghost use Rattle.desk_io.specs.Transfers.{Puts};
ghost use Rattle.net_core.specs.Network.{link_at};
ghost use Rattle.pending_text.specs.declared.pending.TheConstants.{PIECE};
ghost use Rattle.pending_text.specs.Sending.{Adds};
ghost use Rattle.counts.specs.Text.{counts_header, counts_text, through_line, through_lines};
ghost use Rattle.counts.specs.Text.{turn_line, turn_lines};
ghost use Rattle.counts.specs.Turns.{IsOfNet};

use crate::through_counts::{ThroughCount, ThroughCounts};
use crate::turn_counts::{TurnCount, TurnCounts};
use desk_io::{Desk, Failed, Output};
use net_core::{LinkNo, Net};
use pending_text::Pending;

/// No line is longer: a word of at most 7 letters, five numbers of at most 20 digits, five commas
/// and a line feed.
const LINE: usize = 128;

/// Puts Counts: its header, a line for each turn count, and then one for each through count; where
/// no link is asked for, `through` is empty. The length of a bucket and the horizon are in steps.
/// On Failed a first part of the text went out. It takes no memory.
pub fn put_counts<D: Desk>(
    desk: &mut D,
    net: &Net,
    turns: &TurnCounts,
    through: &ThroughCounts,
    bucket: u32,
    horizon: u32,
) -> Result<(), Failed>
    requires bucket { 1 ≤ bucket }
    requires horizon { 1 ≤ horizon }
    requires turns { All (IsOfNet net.now horizon bucket) turns.now }
    ensures { Puts output.Counts (counts_text net.now turns.now through.now bucket horizon)
        (D.state desk.old) (D.state desk.new) result }
{
    let mut pending = header();
    add_turn_lines(&mut pending, desk, net, turns.as_slice(), bucket, horizon)?;
    add_through_lines(&mut pending, desk, through.as_slice(), horizon)?;
    pending.put_out(desk, Output::Counts)
}

// The header of Counts.
#[tactic(auto, unfolding(crate::specs::Text::counts_header))]
fn header() -> Pending
    ensures { result ≡ counts_header }
{
    let mut pending = Pending::new();
    pending.push("kind,first,second,from_step,to_step,vehicles\n");
    pending
}

// The identifier of a link.
#[tactic(auto, using(crate::proofs::TextFacts::rows))]
fn id_of(net: &Net, link: LinkNo) -> u64
    requires { link.0 < length net.now.links }
    ensures { result ≡ (link_at net.now link.0).id }
{
    net.link(link).id
}

// The first step of a bucket.
fn first_step(number: u32, bucket: u32) -> u64
    ensures { result ≡ number * bucket }
{
    u64::from(number) * u64::from(bucket)
}

// The step after the last one of a bucket, which the horizon may cut short.
fn step_after(number: u32, bucket: u32, horizon: u32) -> u64
    ensures { result ≡ min ((number + 1) * bucket) horizon }
{
    let end = (u64::from(number) + 1) * u64::from(bucket);
    end.min(u64::from(horizon))
}

// Adds the line of a turn count to what is pending.
#[tactic(auto, using(crate::proofs::Sent::text), unfolding(crate::specs::Text::turn_line))]
fn push_turn(pending: &mut Pending, net: &Net, turn: &TurnCount, bucket: u32, horizon: u32)
    requires room { length pending.old + LINE ≤ PIECE }
    requires turn { IsOfNet net.now horizon bucket turn.now }
    ensures { pending.new ≡ pending.old ++ turn_line net.now bucket horizon turn.now }
{
    pending.push("turn,");
    pending.push_number(id_of(net, turn.a));
    pending.push(",");
    pending.push_number(id_of(net, turn.b));
    pending.push(",");
    pending.push_number(first_step(turn.bucket, bucket));
    pending.push(",");
    pending.push_number(step_after(turn.bucket, bucket, horizon));
    pending.push(",");
    pending.push_number(turn.vehicles);
    pending.push("\n");
}

// Adds the line of a turn count.
#[tactic(auto, using(crate::proofs::Sent::pieces))]
fn add_turn<D: Desk>(
    pending: &mut Pending,
    desk: &mut D,
    net: &Net,
    turn: &TurnCount,
    bucket: u32,
    horizon: u32,
) -> Result<(), Failed>
    requires { IsOfNet net.now horizon bucket turn.now }
    ensures { Adds output.Counts (turn_line net.now bucket horizon turn.now) pending.old pending.new
        (D.state desk.old) (D.state desk.new) result }
{
    pending.make_room(desk, Output::Counts, LINE)?;
    push_turn(pending, net, turn, bucket, horizon);
    Ok(())
}

// Adds the lines of turn counts.
#[tactic(auto, using(crate::proofs::Sent::starts), unfolding(crate::specs::Text::turn_lines))]
fn add_turn_lines<D: Desk>(
    pending: &mut Pending,
    desk: &mut D,
    net: &Net,
    turns: &[TurnCount],
    bucket: u32,
    horizon: u32,
) -> Result<(), Failed>
    requires { All (IsOfNet net.now horizon bucket) turns.now }
    ensures { Adds output.Counts (turn_lines net.now bucket horizon turns.now)
        pending.old pending.new (D.state desk.old) (D.state desk.new) result }
{
    'each: for turn in turns {
        add_turn(pending, desk, net, turn, bucket, horizon)?;
    }
    Ok(())
}

// Adds the line of a through count to what is pending.
#[tactic(auto, using(crate::proofs::Sent::text), unfolding(crate::specs::Text::through_line))]
fn push_through(pending: &mut Pending, count: &ThroughCount, horizon: u32)
    requires { length pending.old + LINE ≤ PIECE }
    ensures { pending.new ≡ pending.old ++ through_line horizon count.now }
{
    pending.push("through,");
    pending.push_number(count.origin);
    pending.push(",");
    pending.push_number(count.destination);
    pending.push(",0,");
    pending.push_number(u64::from(horizon));
    pending.push(",");
    pending.push_number(count.vehicles);
    pending.push("\n");
}

// Adds the line of a through count.
#[tactic(auto, using(crate::proofs::Sent::pieces))]
fn add_through<D: Desk>(
    pending: &mut Pending,
    desk: &mut D,
    count: &ThroughCount,
    horizon: u32,
) -> Result<(), Failed>
    ensures { Adds output.Counts (through_line horizon count.now) pending.old pending.new
        (D.state desk.old) (D.state desk.new) result }
{
    pending.make_room(desk, Output::Counts, LINE)?;
    push_through(pending, count, horizon);
    Ok(())
}

// Adds the lines of through counts.
#[tactic(auto, using(crate::proofs::Sent::starts), unfolding(crate::specs::Text::through_lines))]
fn add_through_lines<D: Desk>(
    pending: &mut Pending,
    desk: &mut D,
    through: &[ThroughCount],
    horizon: u32,
) -> Result<(), Failed>
    ensures { Adds output.Counts (through_lines horizon through.now) pending.old pending.new
        (D.state desk.old) (D.state desk.new) result }
{
    'each: for count in through {
        add_through(pending, desk, count, horizon)?;
    }
    Ok(())
}
