// The work of a transfer and of a gather, on the parts that a seat holds for it.
ghost use Rattle.cell_stages.specs.Contents.{away};
ghost use Rattle.dta_model.specs.Lent.{plan_of};
ghost use Rattle.node_transfer.specs.Halves.{IsHalf, leaving_cell, left_mail, links_of};
ghost use Rattle.node_transfer.specs.Halves.{taken_mail, taking_cell};
ghost use Rattle.phase_claims.specs.PlacesHeld.{IsSameSeat, node_places};
ghost use Rattle.std.specs.Prelude.{◌≡◌};

use crate::noted_cell::NotedCell;
use crate::part::Part;
use crate::work::{give_cell, take_cell};
use crate::work_links::{gather, transfer};
use atomic_table::{Seat, Shared, TableRule};
use dta_model::Loading;
use node_transfer::{Half, HalfStep};

/// A half of a node's step, on the places of its cell and of the mail of its links.
pub(crate) fn work_held<V, K, P: TableRule<Part, V, K>>(
    shared: &Shared<Part, V, K, P>,
    seat: &mut Seat<Part, V>,
    loading: &Loading,
    half: HalfStep,
)
    requires table { seat.old.table_id ≡ shared.now.table_id }
    requires step { IsHalf (plan_of loading.now) half }
    requires held { seat.old.me.1 ≡ node_places (plan_of loading.now) half.node.0
        (taking_cell (plan_of loading.now) half away) (taken_mail (plan_of loading.now) half)
        (links_of (plan_of loading.now) half) }
    ensures seat { IsSameSeat seat.old seat.new }
    ensures held { seat.new.me.1 ≡ node_places (plan_of loading.now) half.node.0
        (leaving_cell (plan_of loading.now) half away) (left_mail (plan_of loading.now) half)
        (links_of (plan_of loading.now) half) }
{
    let HalfStep { node, step, .. } = half;
    let slot = node.0 as usize;
    let NotedCell { mut cell, .. } = take_cell(shared, seat, slot);
    seat.turn();
    match half.half {
        Half::Transfer => transfer(shared, seat, loading, node, step, &mut cell),
        Half::Gather => gather(shared, seat, loading, node, step, &mut cell),
    }
    give_cell(shared, seat, slot, NotedCell::after(half, cell));
}
