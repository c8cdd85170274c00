// The work of a posting, on the parts that a seat holds for it.
ghost use Rattle.atomic_table.specs.Table.{rest, turned};
ghost use Rattle.dta_model.specs.Lent.{plan_of};
ghost use Rattle.dta_model.specs.Sound.{IsSound};
ghost use Rattle.phase_claims.specs.PlacesCounted.{cell_place, counted_in, posting_places};
ghost use Rattle.phase_claims.specs.PlacesHeld.{HoldsNothing, HoldsWriter, IsSameSeat};
ghost use Rattle.std.specs.Prelude.{◌≡◌, ◌<◌, ◌∷◌, suc, length};

use crate::part::Part;
use crate::work_counts::add_cell;
use atomic_table::{Seat, Shared, TableRule};
use dta_model::{Eight, Loading};
use monitors::{Board, WriterPass};
use net_core::NodeNo;
use std::sync::Wait;

/// The posting of a step: all cells are counted, and the state is posted with the writer's pass.
pub(crate) fn post_held<R: Wait, V, K, P: TableRule<Part, V, K>>(
    rt: &R,
    shared: &Shared<Part, V, K, P>,
    seat: &mut Seat<Part, V>,
    loading: &Loading,
    board: &Board,
    step: u32,
)
    requires table { seat.old.table_id ≡ shared.now.table_id }
    requires sound { IsSound (plan_of loading.now) }
    requires step { step < (plan_of loading.now).horizon }
    requires held { seat.old.me.1 ≡
        posting_places (plan_of loading.now) board.now (suc step) step }
    ensures seat { IsSameSeat seat.old seat.new }
    ensures held { seat.new.me.1 ≡
        posting_places (plan_of loading.now) board.now (suc step) (suc step) }
{
    let nodes = loading.net.node_count();
    let links = loading.net.link_count();
    let mut eight = Eight {
        steps: step as u64 + 1,
        waiting: 0,
        running: 0,
        arrived: 0,
        first: [0; 4],
    };
    for n in 0..nodes {
        count_cell(shared, seat, loading, NodeNo(n), step + 1, &mut eight);
    }
    let slot = nodes as usize + links as usize;
    let mut writer = take_writer(shared, seat, slot);
    board.post(rt, &mut writer, eight);
    give_writer(shared, seat, slot, writer);
}

// Adds the counts of the cell in the first place that the seat holds. It stays there, and the seat
// turns to the next place.
fn count_cell<V, K, P: TableRule<Part, V, K>>(
    shared: &Shared<Part, V, K, P>,
    seat: &mut Seat<Part, V>,
    loading: &Loading,
    node: NodeNo,
    steps: u32,
    eight: &mut Eight,
)
    requires table { seat.old.table_id ≡ shared.now.table_id }
    requires sound { IsSound (plan_of loading.now) }
    requires node { node.0 < length (plan_of loading.now).net.nodes }
    requires held { seat.old.me.1
        ≡ cell_place (plan_of loading.now) steps node.0 ∷ rest seat.old.me.1 }
    requires eight { eight.old ≡ counted_in (plan_of loading.now) steps node.0 }
    ensures seat { IsSameSeat seat.old seat.new }
    ensures held { seat.new.me.1 ≡ turned seat.old.me.1 }
    ensures eight { eight.new ≡ counted_in (plan_of loading.now) steps (suc node.0) }
{
    let Part::Cell(cell) = seat.slot_mut(shared, node.0 as usize) else {
        unreachable!()
    };
    add_cell(loading, node, steps, cell, eight);
    seat.turn();
}

// Takes the writer's pass out of the first place that the seat holds, which stays the first one.
fn take_writer<V, K, P: TableRule<Part, V, K>>(
    shared: &Shared<Part, V, K, P>,
    seat: &mut Seat<Part, V>,
    slot: usize,
) -> WriterPass
    requires table { seat.old.table_id ≡ shared.now.table_id }
    requires held { HoldsWriter slot seat.old.me.1 }
    ensures seat { IsSameSeat seat.old seat.new }
    ensures writer { seat.old.me.1 ≡ (slot, Part.Writer result) ∷ rest seat.old.me.1 }
    ensures held { seat.new.me.1 ≡ (slot, Part.Out) ∷ rest seat.old.me.1 }
{
    let Part::Writer(writer) = shared.exchange(seat, slot, Part::Out) else {
        unreachable!()
    };
    writer
}

// Brings the writer's pass into the first place that the seat holds, and turns to the next one.
fn give_writer<V, K, P: TableRule<Part, V, K>>(
    shared: &Shared<Part, V, K, P>,
    seat: &mut Seat<Part, V>,
    slot: usize,
    writer: WriterPass,
)
    requires table { seat.old.table_id ≡ shared.now.table_id }
    requires held { HoldsNothing slot seat.old.me.1 }
    ensures seat { IsSameSeat seat.old seat.new }
    ensures held { seat.new.me.1 ≡ turned ((slot, Part.Writer writer) ∷ rest seat.old.me.1) }
{
    let Part::Out = shared.exchange(seat, slot, Part::Writer(writer)) else {
        unreachable!()
    };
    seat.turn();
}
