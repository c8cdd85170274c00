// The text of the waits at origins.
ghost use Rattle.std.specs.Prelude.{◌≡◌, ◌<◌, ◌≤◌, ◌+◌, ◌++◌, length, OnOk, OnErr};
ghost use Rattle.desk_io.specs.declared.desk.Output.TheVariants as output;
ghost use Rattle.desk_io.specs.Transfers.{Puts};
ghost use Rattle.pending_text.specs.declared.pending.TheConstants.{PIECE};
ghost use Rattle.pending_text.specs.Sending.{Adds};
ghost use Rattle.reports.specs.Texts.{bucket_wait_line, link_wait_lines, origin_wait_header};
ghost use Rattle.reports.specs.Texts.{origin_wait_text, told_wait_line};

use crate::buckets::{first_step, link_row, step_after};
use desk_io::{Desk, Failed, Output};
use net_core::{LinkNo, Net};
use pending_text::Pending;
use trip_costs::OriginWaits;

/// No line of a bucket is longer: five numbers of at most 20 digits, four commas and a line feed.
const LINE: usize = 128;

// The header of OriginWait.
#[tactic(auto, unfolding(crate::specs::Texts::origin_wait_header))]
fn header() -> Pending
    ensures { result ≡ origin_wait_header }
{
    let mut pending = Pending::new();
    pending.push("link_id,from_step,to_step,departed,wait_steps\n");
    pending
}

// Adds the line of a bucket to what is pending.
#[tactic(auto, using(crate::proofs::Sent::text), unfolding(crate::specs::Texts::bucket_wait_line))]
fn push_bucket(pending: &mut Pending, net: &Net, waits: &OriginWaits, link: LinkNo, bucket: u32)
    requires room { length pending.old + LINE ≤ PIECE }
    requires link { link.0 < length net.now.links }
    ensures { pending.new ≡ pending.old ++ bucket_wait_line net.now waits.now link.0 bucket }
{
    let row = link_row(net, link);
    let steps = waits.bucket_steps();
    pending.push_number(row.id);
    pending.push(",");
    pending.push_number(first_step(bucket, steps));
    pending.push(",");
    pending.push_number(step_after(bucket, steps, waits.horizon()));
    pending.push(",");
    pending.push_number(u64::from(waits.departed(link, bucket)));
    pending.push(",");
    pending.push_number(u64::from(waits.in_bucket(link, bucket)));
    pending.push("\n");
}

// Adds the line of a bucket to which a vehicle belongs, and nothing of another one.
#[tactic(auto, using(crate::proofs::Sent::told), unfolding(crate::specs::Texts::told_wait_line))]
fn add_bucket<D: Desk>(
    pending: &mut Pending,
    desk: &mut D,
    net: &Net,
    waits: &OriginWaits,
    link: LinkNo,
    bucket: u32,
) -> Result<(), Failed>
    requires { link.0 < length net.now.links }
    ensures { Adds output.OriginWait (told_wait_line net.now waits.now link.0 bucket)
        pending.old pending.new (D.state desk.old) (D.state desk.new) result }
{
    if waits.departed(link, bucket) == 0 {
        return Ok(());
    }
    pending.make_room(desk, Output::OriginWait, LINE)?;
    push_bucket(pending, net, waits, link, bucket);
    Ok(())
}

// Adds the lines of a link.
#[tactic(auto, using(crate::proofs::Sent::starts), unfolding(crate::specs::Texts::link_wait_lines))]
fn add_link<D: Desk>(
    pending: &mut Pending,
    desk: &mut D,
    net: &Net,
    waits: &OriginWaits,
    link: LinkNo,
) -> Result<(), Failed>
    requires { link.0 < length net.now.links }
    ensures { Adds output.OriginWait (link_wait_lines net.now waits.now link.0)
        pending.old pending.new (D.state desk.old) (D.state desk.new) result }
{
    'each: for bucket in 0..waits.buckets() {
        add_bucket(pending, desk, net, waits, link, bucket)?;
    }
    Ok(())
}

/// Puts OriginWait of `assign`: for each link in table order a line for each bucket to which a
/// vehicle belongs. On Failed a first part of it went out. It takes no memory.
#[tactic(auto, using(crate::proofs::Sent::starts))]
pub fn put_origin_waits<D: Desk>(desk: &mut D, net: &Net, waits: &OriginWaits) -> Result<(), Failed>
    ensures { Puts output.OriginWait (origin_wait_text net.now waits.now)
        (D.state desk.old) (D.state desk.new) result }
{
    let mut pending = header();
    'each: for link in 0..net.link_count() {
        add_link(&mut pending, desk, net, waits, LinkNo(link))?;
    }
    pending.put_out(desk, Output::OriginWait)
}
