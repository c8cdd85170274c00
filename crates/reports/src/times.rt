// The text of the link times.
ghost use Rattle.std.specs.Prelude.{◌≡◌, ◌<◌, ◌≤◌, ◌+◌, ◌++◌, length, OnOk, OnErr};
ghost use Rattle.desk_io.specs.declared.desk.Output.TheVariants as output;
ghost use Rattle.desk_io.specs.Transfers.{Puts};
ghost use Rattle.dta_model.specs.LinkTimes.{bucket_count, free_steps};
ghost use Rattle.pending_text.specs.declared.pending.TheConstants.{PIECE};
ghost use Rattle.pending_text.specs.Sending.{Adds};
ghost use Rattle.reports.specs.Texts.{bucket_line, link_lines, link_time_header, link_time_text};

use crate::buckets::{first_step, link_row, step_after};
use desk_io::{Desk, Failed, Output};
use link_times::LinkTimes;
use net_core::{LinkNo, Net};
use pending_text::Pending;

/// No line of a bucket is longer: six numbers of at most 20 digits, five commas and a line feed.
const LINE: usize = 128;

// The header of LinkTime.
#[tactic(auto, unfolding(crate::specs::Texts::link_time_header))]
fn header() -> Pending
    ensures { result ≡ link_time_header }
{
    let mut pending = Pending::new();
    pending.push("link_id,from_step,to_step,entered,travel_steps,free_steps\n");
    pending
}

// Adds the line of a bucket to what is pending.
#[tactic(auto, using(crate::proofs::Sent::text), unfolding(crate::specs::Texts::bucket_line))]
fn push_bucket(pending: &mut Pending, net: &Net, times: &LinkTimes, link: LinkNo, bucket: u32)
    requires room { length pending.old + LINE ≤ PIECE }
    requires free { times.now.free ≡ free_steps net.now }
    requires link { link.0 < length net.now.links }
    requires bucket { bucket < bucket_count times.now }
    ensures { pending.new ≡ pending.old ++ bucket_line net.now times.now link.0 bucket }
{
    let row = link_row(net, link);
    let steps = times.bucket_steps();
    let first = first_step(bucket, steps);
    pending.push_number(row.id);
    pending.push(",");
    pending.push_number(first);
    pending.push(",");
    pending.push_number(step_after(bucket, steps, times.horizon()));
    pending.push(",");
    pending.push_number(times.entered(link, bucket));
    pending.push(",");
    pending.push_number(u64::from(times.at(link, first)));
    pending.push(",");
    pending.push_number(u64::from(row.free));
    pending.push("\n");
}

// Adds the line of a bucket.
#[tactic(auto, using(crate::proofs::Sent::pieces))]
fn add_bucket<D: Desk>(
    pending: &mut Pending,
    desk: &mut D,
    net: &Net,
    times: &LinkTimes,
    link: LinkNo,
    bucket: u32,
) -> Result<(), Failed>
    requires free { times.now.free ≡ free_steps net.now }
    requires link { link.0 < length net.now.links }
    requires bucket { bucket < bucket_count times.now }
    ensures { Adds output.LinkTime (bucket_line net.now times.now link.0 bucket)
        pending.old pending.new (D.state desk.old) (D.state desk.new) result }
{
    pending.make_room(desk, Output::LinkTime, LINE)?;
    push_bucket(pending, net, times, link, bucket);
    Ok(())
}

// Adds the lines of a link.
#[tactic(auto, using(crate::proofs::Sent::starts), unfolding(crate::specs::Texts::link_lines))]
fn add_link<D: Desk>(
    pending: &mut Pending,
    desk: &mut D,
    net: &Net,
    times: &LinkTimes,
    link: LinkNo,
) -> Result<(), Failed>
    requires free { times.now.free ≡ free_steps net.now }
    requires link { link.0 < length net.now.links }
    ensures { Adds output.LinkTime (link_lines net.now times.now link.0) pending.old pending.new
        (D.state desk.old) (D.state desk.new) result }
{
    'each: for bucket in 0..times.buckets() {
        add_bucket(pending, desk, net, times, link, bucket)?;
    }
    Ok(())
}

/// Puts LinkTime of `assign`: for each link in table order a line for each bucket. The table has
/// the network's links. On Failed a first part of it went out. It takes no memory.
#[tactic(auto, using(crate::proofs::Sent::starts))]
pub fn put_link_times<D: Desk>(desk: &mut D, net: &Net, times: &LinkTimes) -> Result<(), Failed>
    requires { times.now.free ≡ free_steps net.now }
    ensures { Puts output.LinkTime (link_time_text net.now times.now)
        (D.state desk.old) (D.state desk.new) result }
{
    let mut pending = header();
    'each: for link in 0..net.link_count() {
        add_link(&mut pending, desk, net, times, LinkNo(link))?;
    }
    pending.put_out(desk, Output::LinkTime)
}
