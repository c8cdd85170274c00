// The parts of a floor that is closed: they are dropped, or the cells hand over their journeys and
// the writer's pass comes back.
ghost use Rattle.std.specs.Mem.Slots.{IsFull, slots_filled, slots_items, slots_len};
ghost use Rattle.dta_model.specs.Lent.{plan_of};
ghost use Rattle.dta_model.specs.Loading.{journeys_of};
ghost use Rattle.dta_model.specs.Plans.{vehicle_count};
ghost use Rattle.dta_model.specs.Sound.{IsSound};
ghost use Rattle.dta_model.specs.Units.{posting_part};
ghost use Rattle.node_transfer.specs.Start.{no_journeys};
ghost use Rattle.phase_claims.specs.PlacesClosed.{AreLast, HasCell, HasWriter, IsTaken};
ghost use Rattle.std.specs.Prelude.{◌≡◌, ◌<◌, suc, IsTrue, false, slice_index_or};
ghost use lib.ListN.{get_elem?};
ghost use mathlib.Core.Option.{some};

use crate::noted_cell::NotedCell;
use crate::part::Part;
use atomic_table::Closed;
use dta_model::{Loaded, Loading};
use monitors::WriterPass;
use std::alloc::Global;

/// Drops all parts.
pub(crate) fn drop_parts(mut closed: Closed<Part, Global>)
    requires { IsFull closed.slots }
{
    for i in 0..closed.slot_count() {
        drop(closed.take(i));
    }
    closed.free();
}

/// Takes the parts out: the cells after the last step hand over their journeys.
pub(crate) fn take_parts(
    mut closed: Closed<Part, Global>,
    loading: &Loading,
    loaded: &mut Loaded,
) -> WriterPass
    requires sound { IsSound (plan_of loading.now) }
    requires full { IsFull closed.slots }
    requires count { slots_len closed.slots ≡ suc (posting_part (plan_of loading.now)) }
    requires cells { AreLast (plan_of loading.now) (slots_items closed.slots) }
    requires writer { HasWriter (posting_part (plan_of loading.now)) (slots_items closed.slots) }
    requires loaded { loaded.old ≡ no_journeys (vehicle_count (plan_of loading.now)) }
    ensures loaded { loaded.new ≡ journeys_of (plan_of loading.now) }
    ensures writer { get_elem? (slots_items closed.slots) (posting_part (plan_of loading.now))
        ≡ some (Part.Writer result) }
{
    let nodes = loading.net.node_count() as usize;
    let links = loading.net.link_count() as usize;
    for n in 0..nodes {
        let cell = take_cell(&mut closed, n);
        cell.hand_over(loaded);
    }
    for l in 0..links {
        drop(closed.take(nodes + l));
    }
    let writer = take_writer(&mut closed, nodes + links);
    closed.free();
    writer
}

// Takes a cell out.
fn take_cell(closed: &mut Closed<Part, Global>, slot: usize) -> NotedCell
    requires inside { slot < slots_len closed.old.slots }
    requires full { IsTrue (slice_index_or (slots_filled closed.old.slots) slot false) }
    requires cell { HasCell slot (slots_items closed.old.slots) }
    ensures cell { get_elem? (slots_items closed.old.slots) slot ≡ some (Part.Cell result) }
    ensures count { slots_len closed.new.slots ≡ slots_len closed.old.slots }
    ensures taken { IsTaken (slots_items closed.old.slots) (slots_items closed.new.slots)
        (slots_filled closed.old.slots) (slots_filled closed.new.slots) slot }
{
    let Part::Cell(cell) = closed.take(slot) else {
        unreachable!()
    };
    cell
}

// Takes the writer's pass out.
fn take_writer(closed: &mut Closed<Part, Global>, slot: usize) -> WriterPass
    requires inside { slot < slots_len closed.old.slots }
    requires full { IsTrue (slice_index_or (slots_filled closed.old.slots) slot false) }
    requires writer { HasWriter slot (slots_items closed.old.slots) }
    ensures writer { get_elem? (slots_items closed.old.slots) slot ≡ some (Part.Writer result) }
    ensures count { slots_len closed.new.slots ≡ slots_len closed.old.slots }
    ensures taken { IsTaken (slots_items closed.old.slots) (slots_items closed.new.slots)
        (slots_filled closed.old.slots) (slots_filled closed.new.slots) slot }
{
    let Part::Writer(writer) = closed.take(slot) else {
        unreachable!()
    };
    writer
}
