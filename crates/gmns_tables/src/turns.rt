// The turns of a table that was accepted.
ghost use Rattle.std.specs.Prelude.{◌≡◌, ◌<◌, ◌++◌, ◌∷◌, [], length, OnOk, None, is_some};
ghost use Rattle.net_core.specs.Ids.{place_of_pair};
ghost use Rattle.net_core.specs.Rows.{turn_pairs};
ghost use Rattle.net_core.specs.declared.rows.TheConstants.{MOST_TURNS};
ghost use Rattle.gmns_tables.specs.RowsWithWindows.{AreTurnRows, IsNextTurn, rows_of, windows_of};

use crate::with_windows::{RowParts, WithWindows};
use net_core::{LinkNo, Pairs, TurnRow, Windows};
use std::alloc::{AllocError, Global};
use std::marker::Model;

/// The turns of a table, in its order, of different pairs of links and with numbers in range, and
/// the windows of each.
#[derive(Drop)]
pub struct TurnRows {
    rows: Vec<TurnRow>,
    windows: Vec<Windows>,
    pairs: Pairs,
}

impl Model for TurnRows {
    ghost use Rattle.std.specs.Prelude.{◌≡◌, List, length};
    ghost use Rattle.net_core.specs.Rows.{turn_pairs};
    ghost use Rattle.net_core.specs.declared.rows.TurnRow.{TurnRow};
    ghost use Rattle.gmns_tables.specs.RowsWithWindows.{AreTurnRows, rows_of, with_windows};
    ghost use Rattle.gmns_tables.specs.declared.with_windows.WithWindows.{WithWindows};

    ghost Value = { List (WithWindows TurnRow) };

    ghost view = { λ a. with_windows a.rows.items a.windows.items };

    ghost invariant = { λ a. (length a.windows.items ≡ length a.rows.items)
        × (a.pairs ≡ turn_pairs (rows_of (with_windows a.rows.items a.windows.items)))
        × AreTurnRows (with_windows a.rows.items a.windows.items) };
}

impl TurnRows {
    // No turns yet.
    pub(crate) fn new(alloc: Global) -> Self
        ensures { result ≡ [] }
    {
        TurnRows {
            rows: Vec::new(alloc),
            windows: Vec::new(alloc),
            pairs: Pairs::new(alloc),
        }
    }

    /// The turns, without their windows.
    #[tactic(auto, using(crate::proofs::WindowsFacts::parts))]
    pub fn as_slice(&self) -> &[TurnRow]
        ensures turns { result.now ≡ rows_of self.now }
        ensures sound { AreTurnRows self.now }
    {
        &self.rows
    }

    /// The turns, without their windows.
    #[tactic(auto, using(crate::proofs::WindowsFacts::parts))]
    pub fn into_vec(self) -> Vec<TurnRow>
        ensures turns { result.items ≡ rows_of self }
        ensures sound { AreTurnRows self }
    {
        self.rows
    }

    // The turns and the windows of each.
    #[tactic(auto, using(crate::proofs::WindowsFacts::parts))]
    pub(crate) fn into_parts(self) -> RowParts<TurnRow>
        ensures turns { result.rows.items ≡ rows_of self }
        ensures windows { result.windows.items ≡ windows_of self }
        ensures sound { AreTurnRows self }
    {
        RowParts {
            rows: self.rows,
            windows: self.windows,
        }
    }

    // Whether a turn leads from a link to another.
    pub(crate) fn contains(&self, a: LinkNo, b: LinkNo) -> bool
        ensures { result ≡ is_some (place_of_pair (turn_pairs (rows_of self.now)) a.0 b.0) }
    {
        self.pairs.place(a.0, b.0).is_some()
    }

    // Adds a turn of a new pair of links and with numbers in range, and its windows, as the last
    // one.
    #[tactic(auto, using(crate::proofs::WindowsFacts::parts))]
    pub(crate) fn push(&mut self, turn: WithWindows<TurnRow>) -> Result<(), AllocError>
        requires room { length self.old < MOST_TURNS }
        requires next { IsNextTurn self.old turn }
        ensures { OnOk result (self.new ≡ self.old ++ turn ∷ []) }
    {
        self.rows.reserve(1)?;
        self.windows.reserve(1)?;
        self.pairs.add(turn.row.a.0, turn.row.b.0)?;
        self.rows.push(turn.row)?;
        self.windows.push(turn.windows)?;
        Ok(())
    }
}
