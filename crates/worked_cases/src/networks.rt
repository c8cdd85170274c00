// The networks of the worked cases, of which no vehicle is told.
#![tactic(auto, unfolding(crate::specs::OnLiterals::cases_on_literals))]

ghost use Rattle.std.specs.Prelude.{◌≡◌, IfOk};
ghost use Rattle.worked_cases.specs.Networks as rows;

use crate::rows::{link, node};
use crate::written::network;
use net_core::{LinkRow, Memory, Net, NodeNo, NodeRow};
use std::alloc::Global;

/// A link after another, between two zones.
pub fn two_links(alloc: Global) -> Result<Net, Memory>
    ensures { IfOk result (λ net. net ≡ rows.two_links) }
{
    network(
        alloc,
        &[node!(1, Some(1)), node!(2, None), node!(3, Some(3))],
        &[link!(10, 0 => 1), link!(20, 1 => 2)],
        &[],
    )
}

/// The same, with a loop at the node between them.
pub fn a_loop_that_pays(alloc: Global) -> Result<Net, Memory>
    ensures { IfOk result (λ net. net ≡ rows.a_loop_that_pays) }
{
    network(
        alloc,
        &[node!(1, Some(1)), node!(2, None), node!(3, Some(3))],
        &[link!(10, 0 => 1), link!(20, 1 => 2), link!(30, 1 => 1)],
        &[],
    )
}
