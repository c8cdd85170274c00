// The report of a run.
ghost use Rattle.std.specs.Prelude.{◌≡◌, ◌≤◌, ◌+◌, ◌++◌, length, OnOk, OnErr};
ghost use Rattle.desk_io.specs.declared.desk.Output.TheVariants as output;
ghost use Rattle.desk_io.specs.Transfers.{Puts};
ghost use Rattle.pending_text.specs.declared.pending.TheConstants.{PIECE};
ghost use Rattle.reports.specs.Texts.{count_lines, last_gap_lines, report_text};

use desk_io::{Desk, Failed, Output};
use gap::GapLine;
use pending_text::Pending;

/// No lines of a gap are longer: four names, and four numbers of at most 40 digits.
const GAP_LINES: usize = 256;

/// What a run comes to: nodes, links and vehicles; iterations; what has become of the vehicles in
/// the last one; and its gap.
#[derive(Clone, Copy, Debug, PartialEq, Eq, Drop)]
pub struct Summary {
    pub nodes: u32,
    pub links: u32,
    pub vehicles: u32,
    pub unrouted: u32,
    pub iterations: u32,
    pub arrived: u32,
    pub running: u32,
    pub waiting: u32,
    pub gap: GapLine,
}

// The lines of the counts.
#[tactic(auto, using(crate::proofs::Sent::text), unfolding(crate::specs::Texts::count_lines))]
fn counts(summary: &Summary) -> Pending
    ensures lines { result ≡ count_lines summary.now }
    ensures room { length result + GAP_LINES ≤ PIECE }
{
    let mut text = Pending::new();
    text.push("nodes ");
    text.push_number(u64::from(summary.nodes));
    text.push("\nlinks ");
    text.push_number(u64::from(summary.links));
    text.push("\nvehicles ");
    text.push_number(u64::from(summary.vehicles));
    text.push("\nunrouted ");
    text.push_number(u64::from(summary.unrouted));
    text.push("\niterations ");
    text.push_number(u64::from(summary.iterations));
    text.push("\narrived ");
    text.push_number(u64::from(summary.arrived));
    text.push("\nrunning ");
    text.push_number(u64::from(summary.running));
    text.push("\nwaiting ");
    text.push_number(u64::from(summary.waiting));
    text.push("\n");
    text
}

// Adds the lines of a gap.
#[tactic(auto, using(crate::proofs::Sent::text), unfolding(crate::specs::Texts::last_gap_lines))]
fn push_last_gap(text: &mut Pending, line: &GapLine)
    requires { length text.old + GAP_LINES ≤ PIECE }
    ensures { text.new ≡ text.old ++ last_gap_lines line.now }
{
    text.push("route_steps ");
    text.push_wide(line.route_steps);
    text.push("\nleast_steps ");
    text.push_wide(line.least_steps);
    text.push("\ngap_steps ");
    text.push_wide(line.gap_steps);
    text.push("\ngap_ppm ");
    text.push_wide(line.ppm);
    text.push("\n");
}

/// Puts the twelve lines of Report. On Failed a first part of it went out. It takes no memory.
#[tactic(auto, unfolding(crate::specs::Texts::report_text))]
pub fn put_summary<D: Desk>(desk: &mut D, summary: &Summary) -> Result<(), Failed>
    ensures { Puts output.Report (report_text summary.now)
        (D.state desk.old) (D.state desk.new) result }
{
    let mut text = counts(summary);
    push_last_gap(&mut text, &summary.gap);
    text.put_out(desk, Output::Report)
}
