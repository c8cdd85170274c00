// The text of the gaps.
ghost use Rattle.std.specs.Prelude.{◌≡◌, ◌≤◌, ◌+◌, ◌++◌, length, OnOk, OnErr};
ghost use Rattle.desk_io.specs.declared.desk.Output.TheVariants as output;
ghost use Rattle.desk_io.specs.Transfers.{Puts};
ghost use Rattle.pending_text.specs.declared.pending.TheConstants.{PIECE};
ghost use Rattle.pending_text.specs.Sending.{Adds};
ghost use Rattle.reports.specs.Texts.{gap_header, gap_line, gap_text};

use desk_io::{Desk, Failed, Output};
use gap::GapLine;
use pending_text::Pending;

/// No line of an iteration is longer: a number of at most 20 digits, four of at most 40, four
/// commas and a line feed.
const LINE: usize = 192;

// The header of Gap.
#[tactic(auto, unfolding(crate::specs::Texts::gap_header))]
fn header() -> Pending
    ensures { result ≡ gap_header }
{
    let mut pending = Pending::new();
    pending.push("iteration,route_steps,least_steps,gap_steps,gap_ppm\n");
    pending
}

// Adds the line of an iteration to what is pending.
#[tactic(auto, using(crate::proofs::Sent::text), unfolding(crate::specs::Texts::gap_line))]
fn push_gap(pending: &mut Pending, iteration: u64, line: &GapLine)
    requires { length pending.old + LINE ≤ PIECE }
    ensures { pending.new ≡ pending.old ++ gap_line iteration line.now }
{
    pending.push_number(iteration);
    pending.push(",");
    pending.push_wide(line.route_steps);
    pending.push(",");
    pending.push_wide(line.least_steps);
    pending.push(",");
    pending.push_wide(line.gap_steps);
    pending.push(",");
    pending.push_wide(line.ppm);
    pending.push("\n");
}

// Adds the line of an iteration.
#[tactic(auto, using(crate::proofs::Sent::pieces))]
fn add_gap<D: Desk>(
    pending: &mut Pending,
    desk: &mut D,
    iteration: u64,
    line: &GapLine,
) -> Result<(), Failed>
    ensures { Adds output.Gap (gap_line iteration line.now) pending.old pending.new
        (D.state desk.old) (D.state desk.new) result }
{
    pending.make_room(desk, Output::Gap, LINE)?;
    push_gap(pending, iteration, line);
    Ok(())
}

/// Puts Gap: a line for each iteration, from 1. On Failed a first part of it went out. It takes
/// no memory.
#[tactic(auto, using(crate::proofs::Sent::starts))]
pub fn put_gaps<D: Desk>(desk: &mut D, lines: &[GapLine]) -> Result<(), Failed>
    ensures { Puts output.Gap (gap_text lines.now) (D.state desk.old) (D.state desk.new) result }
{
    let mut pending = header();
    'each: for place in 0..lines.len() {
        add_gap(&mut pending, desk, place as u64 + 1, &lines[place])?;
    }
    pending.put_out(desk, Output::Gap)
}
