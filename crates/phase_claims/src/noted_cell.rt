// A cell in its place, with what is known of it.
ghost use Rattle.cell_stages.specs.Contents.{away, cell_before};
ghost use Rattle.dta_model.specs.Loading.{trace_after};
ghost use Rattle.dta_model.specs.Plans.{ins};
ghost use Rattle.dta_model.specs.Sound.{IsSound};
ghost use Rattle.dta_model.specs.State.{count_on};
ghost use Rattle.dta_model.specs.declared.plan.Plan.{Plan};
ghost use Rattle.node_transfer.specs.Counts.{counts_at};
ghost use Rattle.node_transfer.specs.Halves.{IsHalf, leaving_cell};
ghost use Rattle.node_transfer.specs.Hand.{Within, handed, riders_in};
ghost use Rattle.node_transfer.specs.Rest.{IsQuiet};
ghost use Rattle.std.specs.Prelude.{◌≡◌, ◌<◌, ℕ, true, All, Some, length, slice_get};

use dta_model::Loaded;
use node_transfer::{CellCounts, Half, HalfStep, NodeCell};
use std::marker::Model;

/// A node's cell in its place, with what is known of it: below which step nobody of it is ready,
/// and how many it has.
#[derive(Drop)]
pub struct NotedCell {
    pub(crate) cell: NodeCell,
    wake: u32,
    counts: Option<CellCounts>,
}

impl Model for NotedCell {
    ghost use Rattle.cell_stages.specs.CellState.{CellState};
    ghost use Rattle.phase_claims.specs.Noted.{IsNoted};

    ghost Value = { CellState };

    ghost view = { λ c. c.cell };

    ghost invariant = { λ c. IsNoted c.cell c.wake c.counts };
}

impl NotedCell {
    /// A cell of which nothing is known.
    pub(crate) fn new(cell: NodeCell) -> Self
        ensures { result ≡ cell }
    {
        NotedCell {
            cell,
            wake: 0,
            counts: None,
        }
    }

    /// A cell after a half of a step. After a gather it is looked up who of it is ready next, and
    /// it is counted; after a transfer nothing is known.
    pub(crate) fn after(half: HalfStep, cell: NodeCell) -> Self
        requires { (p : Plan) × IsHalf p half × (cell ≡ leaving_cell p half away) }
        ensures { result ≡ cell }
    {
        if let Half::Transfer = half.half {
            return NotedCell::new(cell);
        }
        let wake = cell.next_step();
        let counts = Some(cell.counts(half.step + 1));
        NotedCell { cell, wake, counts }
    }

    /// Whether it is known that nobody of the cell is ready in a step.
    pub(crate) fn is_quiet(&self, step: u32) -> bool
        ensures { result ≡ true → IsQuiet step self.now }
    {
        step < self.wake
    }

    /// Sets the journey of each rider of the cell; the other journeys stay.
    pub(crate) fn hand_over(self, loaded: &mut Loaded)
        requires { All (Within (length loaded.old)) (riders_in self) }
        ensures { loaded.new ≡ handed (riders_in self) loaded.old }
    {
        self.cell.hand_over(loaded);
    }

    /// How many of the cell wait, run and have arrived after so many steps.
    pub(crate) fn counts(&self, steps: u32) -> CellCounts
        ensures { (p : Plan) (n : ℕ) → IsSound p → n < length p.net.nodes
            → self.now ≡ cell_before p n steps away away → result ≡ counts_at p n steps }
    {
        match self.counts {
            Some(counts) => counts,
            None => self.cell.counts(steps),
        }
    }

    /// How many vehicles are on the in-link of a place.
    pub(crate) fn on_link(&self, place: usize) -> u64
        requires { place < length self.now.ins }
        ensures { (p : Plan) (n t l : ℕ) → self.now ≡ cell_before p n t away away
            → slice_get (ins p n) place ≡ Some l → result ≡ count_on (trace_after p t) l }
    {
        self.cell.on_link(place)
    }
}
