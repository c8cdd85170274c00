// Numbers of which the oldest gives way to the latest.
ghost use Rattle.link_queues.specs.Leavings.{no_leavings, pushed};
ghost use Rattle.link_queues.specs.LeavingsInside.{round_from};
ghost use Rattle.std.specs.List.{sum};
ghost use Rattle.std.specs.Prelude.{◌≡◌, ◌<◌, ◌+◌, ℕ, IfOk, List, length};

use std::alloc::{AllocError, Global};
use std::marker::Model;

/// Numbers in a ring. The latest stands at `newest`, and older ones follow it, round the end.
#[derive(Drop)]
pub(crate) struct Ring {
    counts: Vec<u32>,
    newest: usize,
    total: u64,
}

impl Model for Ring {
    ghost use Rattle.link_queues.specs.LeavingsInside.{ring_leavings, IsSoundRing};
    ghost use Rattle.std.specs.Prelude.{List, ℕ};

    ghost Value = { List ℕ };

    ghost view = { ring_leavings };

    ghost invariant = { IsSoundRing };
}

// The place before a place of a ring.
fn before(place: usize, count: usize) -> usize
    requires { place < count }
    ensures below { result < count }
    ensures round { (numbers : List ℕ) → length numbers ≡ count
        → round_from place numbers ≡ round_from (result + 1) numbers }
{
    if place == 0 { count - 1 } else { place - 1 }
}

impl Ring {
    /// A ring of so many zeros.
    pub(crate) fn new(alloc: Global, count: u32) -> Result<Self, AllocError>
        requires { 0 < count }
        ensures { IfOk result (λ ring. ring ≡ no_leavings count) }
    {
        let counts = Vec::from_elem(alloc, 0, count as usize)?;
        Ok(Ring {
            counts,
            newest: 0,
            total: 0,
        })
    }

    /// Puts a number first, in the place of the oldest.
    pub(crate) fn push(&mut self, left: u32)
        ensures { self.new ≡ pushed left self.old }
    {
        let place = before(self.newest, self.counts.len());
        let oldest = self.counts[place];
        self.counts[place] = left;
        self.newest = place;
        self.total = self.total - oldest as u64 + left as u64;
    }

    /// The sum of the numbers.
    #[tactic(auto, using(crate::proofs::RingFacts::sum_round))]
    pub(crate) fn total(&self) -> u64
        ensures { result ≡ sum self.now }
    {
        self.total
    }
}
