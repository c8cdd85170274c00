// The public call.
ghost use Rattle.std.specs.Prelude.{◌≡◌, IfOk, IfErr, Err};
ghost use Rattle.grid_maker.specs.declared.maker.GridFault.TheVariants as fault;
ghost use Rattle.grid_maker.specs.Grid.{IsOutOfRange, node_text, link_text, demand_text};

use crate::demand_table::demand_table;
use crate::link_table::link_table;
use crate::node_table::node_table;
use desk_io::Text;
use std::alloc::{AllocError, Global};

/// The least number of rows and columns.
pub const LEAST_SIDE: u32 = 2;

/// The greatest number of rows and columns.
pub const MOST_SIDE: u32 = 60;

/// Why no grid was made.
#[derive(Clone, Copy, Debug, PartialEq, Eq)]
pub enum GridFault {
    /// The number of rows and columns is below 2 or above 60.
    OutOfRange,
    /// There was no memory.
    Memory,
}

impl From<AllocError> for GridFault {
    ghost from_gives = { λ _ e. e ≡ fault.Memory };

    fn from(_: AllocError) -> Self {
        GridFault::Memory
    }
}

/// The tables of a grid.
#[derive(Drop)]
pub struct Texts {
    pub node: Text,
    pub link: Text,
    pub demand: Text,
}

/// The grid of n rows and n columns, with a zone at each corner: from each node a link of 200 to
/// 280 metres to each of its neighbours, and 25 n vehicles from each zone to each other zone.
/// OutOfRange comes exactly where n is below 2 or above 60.
pub fn grid(alloc: Global, n: u32) -> Result<Texts, GridFault>
    ensures texts { IfOk result (λ t.
        (t.node ≡ node_text n) × (t.link ≡ link_text n) × (t.demand ≡ demand_text n)) }
    ensures out_of_range { IfErr result (λ why. why ≡ fault.OutOfRange → IsOutOfRange n) }
    ensures refused { IsOutOfRange n → result ≡ Err fault.OutOfRange }
{
    if !(LEAST_SIDE..=MOST_SIDE).contains(&n) {
        return Err(GridFault::OutOfRange);
    }
    Ok(Texts {
        node: node_table(alloc, n)?,
        link: link_table(alloc, n)?,
        demand: demand_table(alloc, n)?,
    })
}
