// The texts of a skim.
ghost use Rattle.std.specs.Prelude.{◌≡◌, ◌≤◌, ◌+◌, ◌++◌, length, OnOk, OnErr};
ghost use Rattle.desk_io.specs.declared.desk.Output.TheVariants as output;
ghost use Rattle.desk_io.specs.Transfers.{Puts};
ghost use Rattle.pending_text.specs.declared.pending.TheConstants.{DIGITS, PIECE};
ghost use Rattle.pending_text.specs.Outs.{PutsAll};
ghost use Rattle.pending_text.specs.Sending.{Adds};
ghost use Rattle.skims.specs.Texts.{entry_line, least_or_nothing, skim_header, skim_text};
ghost use Rattle.skims.specs.Texts.{skim_report_lines, skim_texts};

use crate::skim_entry::{Skim, SkimEntry};
use desk_io::{Desk, Failed, Output};
use net_core::Net;
use pending_text::{DIGITS, Pending};

/// No line of an entry is longer: four numbers of at most 20 digits, three commas and a line feed.
const LINE: usize = 128;

// The header of Skim.
#[tactic(auto, unfolding(crate::specs::Texts::skim_header))]
fn header() -> Pending
    ensures { result ≡ skim_header }
{
    let mut pending = Pending::new();
    pending.push("o_zone_id,d_zone_id,start_step,least_steps\n");
    pending
}

// Adds least steps to what is pending, or nothing where there is no walk.
fn push_least(pending: &mut Pending, least: Option<u64>)
    requires { length pending.old + DIGITS ≤ PIECE }
    ensures steps { pending.new ≡ pending.old ++ least_or_nothing least }
    ensures few { length pending.new ≤ length pending.old + DIGITS }
{
    match least {
        Some(steps) => pending.push_number(steps),
        None => {}
    }
}

// Adds the line of an entry to what is pending.
#[tactic(auto, using(crate::proofs::Sent::text), unfolding(crate::specs::Texts::entry_line))]
fn push_entry(pending: &mut Pending, entry: SkimEntry)
    requires { length pending.old + LINE ≤ PIECE }
    ensures { pending.new ≡ pending.old ++ entry_line entry }
{
    pending.push_number(entry.origin);
    pending.push(",");
    pending.push_number(entry.destination);
    pending.push(",");
    pending.push_number(u64::from(entry.start));
    pending.push(",");
    push_least(pending, entry.least);
    pending.push("\n");
}

// Adds the line of an entry.
#[tactic(auto, using(crate::proofs::Sent::pieces))]
fn add_entry<D: Desk>(pending: &mut Pending, desk: &mut D, entry: SkimEntry) -> Result<(), Failed>
    ensures { Adds output.Skim (entry_line entry) pending.old pending.new
        (D.state desk.old) (D.state desk.new) result }
{
    pending.make_room(desk, Output::Skim, LINE)?;
    push_entry(pending, entry);
    Ok(())
}

// Puts the table of the entries.
#[tactic(auto, using(crate::proofs::Sent::starts))]
fn put_entries<D: Desk>(desk: &mut D, entries: &[SkimEntry]) -> Result<(), Failed>
    ensures { Puts output.Skim (skim_text entries.now)
        (D.state desk.old) (D.state desk.new) result }
{
    let mut pending = header();
    'each: for entry in entries {
        add_entry(&mut pending, desk, *entry)?;
    }
    pending.put_out(desk, Output::Skim)
}

// The report's four lines.
#[tactic(auto, using(crate::proofs::Sent::text), unfolding(crate::specs::Texts::skim_report_lines))]
fn report(nodes: u32, links: u32, zones: u32, entries: usize) -> Pending
    ensures { result ≡ skim_report_lines nodes links zones entries }
{
    let mut text = Pending::new();
    text.push("nodes ");
    text.push_number(u64::from(nodes));
    text.push("\nlinks ");
    text.push_number(u64::from(links));
    text.push("\nzones ");
    text.push_number(u64::from(zones));
    text.push("\nentries ");
    text.push_number(entries as u64);
    text.push("\n");
    text
}

/// Puts Skim, a line for each entry, and then its Report: how many nodes, links, zones and entries
/// there are. On Failed a first part of one of them went out, of Report only where Skim is whole.
/// It takes no memory.
pub fn put_skim<D: Desk>(desk: &mut D, net: &Net, skim: &Skim) -> Result<(), Failed>
    ensures { PutsAll (skim_texts net.now skim.now) (D.state desk.old) (D.state desk.new) result }
{
    let entries = skim.as_slice();
    put_entries(desk, entries)?;
    report(
        net.node_count(),
        net.link_count(),
        net.zone_count(),
        entries.len(),
    )
    .put_out(desk, Output::Report)
}
