// The report of an audit.
ghost use Rattle.std.specs.Prelude.{◌≡◌, OnOk, OnErr, option_copied};
ghost use Rattle.desk_io.specs.declared.desk.Output.TheVariants as output;
ghost use Rattle.desk_io.specs.Transfers.{Puts};
ghost use Rattle.reports.specs.Texts.{audit_ok_text, audit_text, differs_line};

use crate::names::{push_column, push_table};
use desk_io::{Desk, Failed, Output, Table};
use net_core::Net;
use pending_text::Pending;
use row_reader::Column;

/// A place of a table that differs from what an audit computes. The line is the number of the
/// record, where the header is 1.
#[derive(Clone, Copy, Debug, PartialEq, Eq)]
pub struct Place {
    pub table: Table,
    pub line: u64,
    pub column: Column,
}

// The line of a place that differs.
#[tactic(auto, using(crate::proofs::Sent::text), unfolding(crate::specs::Texts::differs_line))]
fn differs_text(place: &Place) -> Pending
    ensures { result ≡ differs_line place.now }
{
    let mut line = Pending::new();
    line.push("audit: ");
    push_table(&mut line, place.table);
    line.push(" line ");
    line.push_number(place.line);
    line.push(" ");
    push_column(&mut line, place.column);
    line.push("\n");
    line
}

// The lines where no place differs.
#[tactic(auto, using(crate::proofs::Sent::text), unfolding(crate::specs::Texts::audit_ok_text))]
fn ok_text(vehicles: u32, links: u32) -> Pending
    ensures { result ≡ audit_ok_text vehicles links }
{
    let mut text = Pending::new();
    text.push("audit ok\nvehicles ");
    text.push_number(u64::from(vehicles));
    text.push("\nlinks ");
    text.push_number(u64::from(links));
    text.push("\n");
    text
}

// The report of an audit.
#[tactic(auto, unfolding(crate::specs::Texts::audit_text))]
fn text(net: &Net, vehicles: u32, differs: Option<&Place>) -> Pending
    ensures { result ≡ audit_text net.now vehicles (option_copied differs.entry) }
{
    match differs {
        None => ok_text(vehicles, net.link_count()),
        Some(place) => differs_text(place),
    }
}

/// Puts Report of an audit: the one line of the first place that differs, or where none does,
/// three lines with the numbers of vehicles and links. On Failed a first part of it went out. It
/// takes no memory.
pub fn put_audit<D: Desk>(
    desk: &mut D,
    net: &Net,
    vehicles: u32,
    differs: Option<&Place>,
) -> Result<(), Failed>
    ensures { Puts output.Report (audit_text net.now vehicles (option_copied differs.entry))
        (D.state desk.old) (D.state desk.new) result }
{
    text(net, vehicles, differs).put_out(desk, Output::Report)
}
