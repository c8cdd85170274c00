// The lines of refusals.
ghost use Rattle.std.specs.Prelude.{◌≡◌, OnOk, OnErr};
ghost use Rattle.desk_io.specs.declared.desk.Output.TheVariants as output;
ghost use Rattle.desk_io.specs.Transfers.{Puts};
ghost use Rattle.reports.specs.declared.refusal.Refusal.TheVariants as why;
ghost use Rattle.reports.specs.Texts.{link_steps_text, refusal_line};

use crate::names::{push_code, push_column, push_table};
use crate::refusal::{MOST_SKIM_ENTRIES, MOST_SWEEP_LINK_STEPS, Refusal};
use desk_io::{Desk, Failed, MOST_TABLE_BYTES, Output, Table};
use dta_model::{MOST_LINK_STEPS, MOST_TRIPS};
use pending_text::Pending;
use row_reader::TableFault;

// The line of a table's first fault.
#[tactic(auto, using(crate::proofs::Sent::text), unfolding(crate::specs::Texts::refusal_line))]
fn fault_line(fault: TableFault) -> Pending
    ensures { result ≡ refusal_line (why.Table fault) }
{
    let mut line = Pending::new();
    push_table(&mut line, fault.table);
    line.push(" line ");
    line.push_number(fault.line);
    line.push(": ");
    push_code(&mut line, fault.code);
    line.push(" ");
    push_column(&mut line, fault.column);
    line.push("\n");
    line
}

// The line of a table that couldn't be read.
#[tactic(auto, using(crate::proofs::Sent::text), unfolding(crate::specs::Texts::refusal_line))]
fn read_line(table: Table) -> Pending
    ensures { result ≡ refusal_line (why.Read table) }
{
    let mut line = Pending::new();
    line.push("read fault in ");
    push_table(&mut line, table);
    line.push("\n");
    line
}

// The line of a table that is too long.
#[tactic(auto, using(crate::proofs::Sent::text), unfolding(crate::specs::Texts::refusal_line))]
fn long_line(table: Table) -> Pending
    ensures { result ≡ refusal_line (why.LongTable table) }
{
    let mut line = Pending::new();
    line.push("size: table ");
    push_table(&mut line, table);
    line.push(" limit ");
    line.push_number(MOST_TABLE_BYTES);
    line.push("\n");
    line
}

// The line of too many links over too many steps.
#[tactic(auto, using(crate::proofs::Sent::text))]
fn link_steps_line(links: u32, steps: u32, limit: u64) -> Pending
    ensures { result ≡ link_steps_text links steps limit }
{
    let mut line = Pending::new();
    line.push("size: links ");
    line.push_number(u64::from(links));
    line.push(" steps ");
    line.push_number(u64::from(steps));
    line.push(" limit ");
    line.push_number(limit);
    line.push("\n");
    line
}

// The line of too many vehicles.
#[tactic(auto, using(crate::proofs::Sent::text), unfolding(crate::specs::Texts::refusal_line))]
fn vehicles_line(at: u64, total: u64) -> Pending
    ensures { result ≡ refusal_line (why.Vehicles at total) }
{
    let mut line = Pending::new();
    line.push("size: demand line ");
    line.push_number(at);
    line.push(" vehicles ");
    line.push_number(total);
    line.push(" limit ");
    line.push_number(MOST_TRIPS as u64);
    line.push("\n");
    line
}

// The line of a skim with too many entries.
#[tactic(auto, using(crate::proofs::Sent::text), unfolding(crate::specs::Texts::refusal_line))]
fn skim_line(number: u128) -> Pending
    ensures { result ≡ refusal_line (why.SkimPairs number) }
{
    let mut line = Pending::new();
    line.push("size: skim ");
    line.push_wide(number);
    line.push(" limit ");
    line.push_number(MOST_SKIM_ENTRIES);
    line.push("\n");
    line
}

// The line of words that aren't in the grammar.
#[tactic(auto, unfolding(crate::specs::Texts::refusal_line))]
fn usage_line() -> Pending
    ensures { result ≡ refusal_line why.Usage }
{
    let mut line = Pending::new();
    line.push("usage: dta COMMAND [options]\n");
    line
}

// The line of a refusal.
#[tactic(auto, unfolding(crate::specs::Texts::refusal_line))]
fn line(refusal: &Refusal) -> Pending
    ensures { result ≡ refusal_line refusal.now }
{
    match *refusal {
        Refusal::Usage => usage_line(),
        Refusal::Table(fault) => fault_line(fault),
        Refusal::Read(table) => read_line(table),
        Refusal::LongTable(table) => long_line(table),
        Refusal::Cells { links, steps } => link_steps_line(links, steps, MOST_LINK_STEPS),
        Refusal::Vehicles { line, total } => vehicles_line(line, total),
        Refusal::SkimPairs { number } => skim_line(number),
        Refusal::SweepCells { links, steps } => {
            link_steps_line(links, steps, MOST_SWEEP_LINK_STEPS)
        }
    }
}

/// Puts the one line that Report has of a refusal. On Failed a first part of it went out. It takes
/// no memory.
pub fn put_refusal<D: Desk>(desk: &mut D, refusal: &Refusal) -> Result<(), Failed>
    ensures { Puts output.Report (refusal_line refusal.now)
        (D.state desk.old) (D.state desk.new) result }
{
    line(refusal).put_out(desk, Output::Report)
}
