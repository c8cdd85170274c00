// The halves of a node's step, over the mail of its links in the places that a seat holds.
ghost use Rattle.cell_stages.specs.Contents.{IsStep, away, batch_of, cell_after, cell_before};
ghost use Rattle.cell_stages.specs.Contents.{room_of};
ghost use Rattle.dta_model.specs.Lent.{plan_of};
ghost use Rattle.dta_model.specs.Plans.{ins as ins_of, outs as outs_of};
ghost use Rattle.phase_claims.specs.PlacesHeld.{IsSameSeat, after_cell, before_cell};
ghost use Rattle.phase_claims.specs.PlacesHeld.{mail_places};
ghost use Rattle.std.specs.Prelude.{◌≡◌, suc};

use crate::part::Part;
use crate::work::{gather_link, send_batch, tell_room};
use atomic_table::{Seat, Shared, TableRule};
use dta_model::Loading;
use net_core::NodeNo;
use node_transfer::NodeCell;

/// The transfer of a node's step, over the mail of its out-links in the places that a seat holds.
pub(crate) fn transfer<V, K, P: TableRule<Part, V, K>>(
    shared: &Shared<Part, V, K, P>,
    seat: &mut Seat<Part, V>,
    loading: &Loading,
    node: NodeNo,
    step: u32,
    cell: &mut NodeCell,
)
    requires table { seat.old.table_id ≡ shared.now.table_id }
    requires step { IsStep (plan_of loading.now) node.0 step }
    requires cell { cell.old ≡ cell_before (plan_of loading.now) node.0 step away away }
    requires held { seat.old.me.1 ≡ before_cell node.0 (mail_places (plan_of loading.now)
        (room_of (plan_of loading.now) step) (outs_of (plan_of loading.now) node.0)) }
    ensures seat { IsSameSeat seat.old seat.new }
    ensures cell { cell.new ≡ cell_after (plan_of loading.now) node.0 step away away }
    ensures held { seat.new.me.1 ≡ after_cell node.0 (mail_places (plan_of loading.now)
        (batch_of (plan_of loading.now) step) (outs_of (plan_of loading.now) node.0)) }
{
    let nodes = loading.net.node_count() as usize;
    let outs = loading.net.outs(node);
    for place in 0..outs.len() {
        tell_room(shared, seat, nodes + outs[place].0 as usize, cell, place);
    }
    cell.transfer(step);
    seat.turn();
    for place in 0..outs.len() {
        send_batch(shared, seat, nodes + outs[place].0 as usize, cell, place);
    }
}

/// The gather of a node's step, over the mail of its in-links in the places that a seat holds.
pub(crate) fn gather<V, K, P: TableRule<Part, V, K>>(
    shared: &Shared<Part, V, K, P>,
    seat: &mut Seat<Part, V>,
    loading: &Loading,
    node: NodeNo,
    step: u32,
    cell: &mut NodeCell,
)
    requires table { seat.old.table_id ≡ shared.now.table_id }
    requires step { IsStep (plan_of loading.now) node.0 step }
    requires cell { cell.old ≡ cell_after (plan_of loading.now) node.0 step away away }
    requires held { seat.old.me.1 ≡ before_cell node.0 (mail_places (plan_of loading.now)
        (batch_of (plan_of loading.now) step) (ins_of (plan_of loading.now) node.0)) }
    ensures seat { IsSameSeat seat.old seat.new }
    ensures cell { cell.new ≡ cell_before (plan_of loading.now) node.0 (suc step) away away }
    ensures held { seat.new.me.1 ≡ after_cell node.0 (mail_places (plan_of loading.now)
        (room_of (plan_of loading.now) (suc step)) (ins_of (plan_of loading.now) node.0)) }
{
    let nodes = loading.net.node_count() as usize;
    let ins = loading.net.ins(node);
    for place in 0..ins.len() {
        let slot = nodes + ins[place].0 as usize;
        gather_link(shared, seat, slot, cell, place, step);
    }
}
