// The loadings of the worked cases.
#![tactic(auto, unfolding(crate::specs::OnLiterals::cases_on_literals))]

ghost use Rattle.dta_model.specs.Examples as model;
ghost use Rattle.std.specs.Prelude.{◌≡◌, IfOk};

use crate::case::Case;
use crate::rows::{link, node, trip};
use crate::written::{Way, Written};
use dta_model::{Queue, Trip};
use net_core::{LinkRow, Memory, NodeNo, NodeRow};
use std::alloc::Global;

/// Two links of ten steps one after another, which take a vehicle in a step, and three vehicles
/// ten steps apart.
pub fn two_links_in_a_line(alloc: Global) -> Result<Case, Memory>
    ensures { IfOk result (λ case. case ≡ model.two_links_in_a_line) }
{
    Case::of(
        alloc,
        &Written {
            nodes: &[node!(1), node!(2), node!(3)],
            links: &[link!(0, 0 => 1), link!(1, 1 => 2)],
            turns: &[],
            queue: Queue::Point,
            horizon: 60,
            trips: &[trip!(0, 5), trip!(1, 15), trip!(2, 25)],
            ways: &[Way::OverTwo(0, 1), Way::OverTwo(0, 1), Way::OverTwo(0, 1)],
        },
    )
}

/// The same, where the second link takes nobody.
pub fn a_link_without_capacity(alloc: Global) -> Result<Case, Memory>
    ensures { IfOk result (λ case. case ≡ model.a_link_without_capacity) }
{
    Case::of(
        alloc,
        &Written {
            nodes: &[node!(1), node!(2), node!(3)],
            links: &[link!(0, 0 => 1), link!(1, 1 => 2, 10, 125, 0)],
            turns: &[],
            queue: Queue::Point,
            horizon: 60,
            trips: &[trip!(0, 5), trip!(1, 15), trip!(2, 25)],
            ways: &[Way::OverTwo(0, 1), Way::OverTwo(0, 1), Way::OverTwo(0, 1)],
        },
    )
}
