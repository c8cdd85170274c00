// The places of a grid, and the nodes that stand there.
ghost use Rattle.std.specs.Prelude.{◌≡◌, ◌<◌, ◌++◌, OnOk, IfOk};
ghost use Rattle.grid_maker.specs.Places.{places_of_row, places};

use std::alloc::{AllocError, Global};

/// A place: its row and its column, both counted from 0.
#[derive(Clone, Copy, Debug, PartialEq, Eq)]
pub(crate) struct Place {
    pub(crate) row: u32,
    pub(crate) column: u32,
}

impl Place {
    ghost use Rattle.grid_maker.specs.Places.{node_id, zone_id};

    /// The identifier of the node here.
    pub(crate) fn node_id(self, side: u32) -> u64
        ensures { result ≡ node_id side self }
    {
        u64::from(self.row) * u64::from(side) + u64::from(self.column) + 1
    }

    /// The zone of the node here: the corners are numbered from 1, row by row.
    pub(crate) fn zone_id(self, side: u32) -> Option<u64>
        requires { 0 < side }
        ensures { result ≡ zone_id side self }
    {
        let last = side - 1;
        if self.row == 0 && self.column == 0 {
            Some(1)
        } else if self.row == 0 && self.column == last {
            Some(2)
        } else if self.row == last && self.column == 0 {
            Some(3)
        } else if self.row == last && self.column == last {
            Some(4)
        } else {
            None
        }
    }
}

// Adds the places of a row, column by column.
#[tactic(auto, using(crate::proofs::GridFacts::counts))]
fn push_row(found: &mut Vec<Place>, side: u32, row: u32) -> Result<(), AllocError>
    ensures { OnOk result (found.new.items ≡ found.old.items ++ places_of_row side row) }
{
    'each: for column in 0..side {
        found.push(Place { row, column })?;
    }
    Ok(())
}

/// All places, in the order of the nodes' identifiers.
#[tactic(auto, using(crate::proofs::GridFacts::counts), unfolding(crate::specs::Places::places))]
pub(crate) fn all_places(alloc: Global, side: u32) -> Result<Vec<Place>, AllocError>
    ensures { IfOk result (λ found. found.items ≡ places side) }
{
    let mut found = Vec::new(alloc);
    'each: for row in 0..side {
        push_row(&mut found, side, row)?;
    }
    Ok(found)
}
