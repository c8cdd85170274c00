// How many vehicles a cell has.
ghost use Rattle.node_transfer.specs.Inside.Lengths.{line_length, waiting_length};
ghost use Rattle.node_transfer.specs.Inside.Counted.{counted};
ghost use Rattle.std.specs.List.{sum_by};
ghost use Rattle.std.specs.Prelude.{◌≡◌, min};

use crate::cell::CellCounts;
use cell_stages::{InLink, OutLink};
use link_queues::Line;

/// The last value of a count, at which it stays.
pub const MOST_COUNT: u64 = 18_446_744_073_709_551_615;

// How many wait for the out-links and are due.
#[tactic(auto, using(crate::proofs::OfCounts::Capped::capped_step))]
fn count_waiting(outs: &[OutLink]) -> u64
    ensures { result ≡ min (sum_by waiting_length outs.now) MOST_COUNT }
{
    let mut count = 0u64;
    for out in outs {
        count = count.saturating_add(out.waiting.due.len() as u64);
    }
    count
}

// How many are on the in-links.
#[tactic(auto, using(crate::proofs::OfCounts::Capped::capped_step))]
fn count_running(ins: &[InLink]) -> u64
    ensures { result ≡ min (sum_by line_length ins.now) MOST_COUNT }
{
    let mut count = 0u64;
    for link in ins {
        count = count.saturating_add(link.line.len() as u64);
    }
    count
}

/// How many wait for the out-links and are due, how many are on the in-links, and how many have
/// arrived.
pub fn count_parts(ins: &[InLink], outs: &[OutLink], arrived: &Line) -> CellCounts
    ensures { result ≡ counted ins.now outs.now arrived.now }
{
    CellCounts {
        waiting: count_waiting(outs),
        running: count_running(ins),
        arrived: arrived.len() as u64,
    }
}
