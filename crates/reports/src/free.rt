// The texts of `freeflow`.
ghost use Rattle.std.specs.Prelude.{◌≡◌, ◌≤◌, ◌+◌, ◌++◌, length, OnOk, OnErr};
ghost use Rattle.desk_io.specs.declared.desk.Output.TheVariants as output;
ghost use Rattle.desk_io.specs.Transfers.{Puts};
ghost use Rattle.pending_text.specs.declared.pending.TheConstants.{PIECE};
ghost use Rattle.pending_text.specs.Outs.{PutsAll};
ghost use Rattle.pending_text.specs.Sending.{Adds};
ghost use Rattle.reports.specs.Texts.{free_link_line, free_link_time_header, free_link_time_text};
ghost use Rattle.reports.specs.Texts.{free_report_text, free_texts};

use desk_io::{Desk, Failed, Output};
use net_core::{LinkRow, Net};
use pending_text::Pending;

/// No line of a link is longer: three numbers of at most 20 digits, two commas and a line feed.
const LINE: usize = 64;

// The header of LinkTime.
#[tactic(auto, unfolding(crate::specs::Texts::free_link_time_header))]
fn header() -> Pending
    ensures { result ≡ free_link_time_header }
{
    let mut pending = Pending::new();
    pending.push("link_id,free_steps,storage\n");
    pending
}

// Adds the line of a link to what is pending.
#[tactic(auto, using(crate::proofs::Sent::text), unfolding(crate::specs::Texts::free_link_line))]
fn push_link(pending: &mut Pending, row: LinkRow)
    requires { length pending.old + LINE ≤ PIECE }
    ensures { pending.new ≡ pending.old ++ free_link_line row }
{
    pending.push_number(row.id);
    pending.push(",");
    pending.push_number(u64::from(row.free));
    pending.push(",");
    pending.push_number(u64::from(row.storage));
    pending.push("\n");
}

// Adds the line of a link.
#[tactic(auto, using(crate::proofs::Sent::pieces))]
fn add_link<D: Desk>(pending: &mut Pending, desk: &mut D, row: LinkRow) -> Result<(), Failed>
    ensures { Adds output.LinkTime (free_link_line row) pending.old pending.new
        (D.state desk.old) (D.state desk.new) result }
{
    pending.make_room(desk, Output::LinkTime, LINE)?;
    push_link(pending, row);
    Ok(())
}

// Puts the table of the links.
#[tactic(auto, using(crate::proofs::Sent::starts))]
fn put_links<D: Desk>(desk: &mut D, links: &[LinkRow]) -> Result<(), Failed>
    ensures { Puts output.LinkTime (free_link_time_text links.now)
        (D.state desk.old) (D.state desk.new) result }
{
    let mut pending = header();
    'each: for row in links {
        add_link(&mut pending, desk, *row)?;
    }
    pending.put_out(desk, Output::LinkTime)
}

// The report's two lines.
#[tactic(auto, using(crate::proofs::Sent::text), unfolding(crate::specs::Texts::free_report_text))]
fn report(nodes: u32, links: u32) -> Pending
    ensures { result ≡ free_report_text nodes links }
{
    let mut text = Pending::new();
    text.push("nodes ");
    text.push_number(u64::from(nodes));
    text.push("\nlinks ");
    text.push_number(u64::from(links));
    text.push("\n");
    text
}

/// Puts LinkTime of `freeflow`, and then its Report. On Failed a first part of one of them went
/// out, of Report only where LinkTime is whole. It takes no memory.
pub fn put_free<D: Desk>(desk: &mut D, net: &Net) -> Result<(), Failed>
    ensures { PutsAll (free_texts net.now) (D.state desk.old) (D.state desk.new) result }
{
    put_links(desk, net.links())?;
    report(net.node_count(), net.link_count()).put_out(desk, Output::Report)
}
