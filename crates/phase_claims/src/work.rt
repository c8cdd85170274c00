// Parts that a seat holds, one at a time: mail is worked on in its place, a cell is taken out of it
// and brought back.
ghost use Rattle.atomic_table.specs.Table.{rest, turned};
ghost use Rattle.phase_claims.specs.PlacesHeld.{HoldsCell, HoldsMail, HoldsNothing, IfMail};
ghost use Rattle.phase_claims.specs.PlacesHeld.{IsSameSeat};
ghost use Rattle.cell_stages.specs.CellState.{CellState};
ghost use Rattle.dta_model.specs.declared.loading.TheConstants.{MOST_HORIZON};
ghost use Rattle.link_queues.specs.declared.line.TheConstants.{MOST_RIDERS};
ghost use Rattle.node_transfer.specs.Exchange.{IsKept, is_room};
ghost use Rattle.node_transfer.specs.Gathered.{grown_by, mail_line, room_told};
ghost use Rattle.node_transfer.specs.Places.{changed_at, out_mail, with_out_mail};
ghost use Rattle.node_transfer.specs.Rest.{IsQuiet};
ghost use Rattle.std.specs.Prelude.{◌≡◌, ◌∷◌, ◌+◌, ◌<◌, ◌≤◌, [], false, true};
ghost use Rattle.std.specs.Prelude.{IfSome, IsSome, IsSomeAnd};
ghost use Rattle.std.specs.Prelude.{length, slice_get};

use crate::noted_cell::NotedCell;
use crate::part::Part;
use atomic_table::{Seat, Shared, TableRule};
use node_transfer::{Mail, NodeCell};

/// Tells an out-link of a cell the room that the mail in the first place tells, which stays there.
/// The seat turns to the next place.
pub(crate) fn tell_room<V, K, P: TableRule<Part, V, K>>(
    shared: &Shared<Part, V, K, P>,
    seat: &mut Seat<Part, V>,
    slot: usize,
    cell: &mut NodeCell,
    place: usize,
)
    requires table { seat.old.table_id ≡ shared.now.table_id }
    requires held { HoldsMail slot seat.old.me.1 }
    requires there { IsSome (out_mail place cell.old) }
    requires room { IfMail slot seat.old.me.1 (λ mail. is_room mail ≡ true) }
    ensures seat { IsSameSeat seat.old seat.new }
    ensures cell { IfMail slot seat.old.me.1
        (λ mail. cell.new ≡ with_out_mail place mail cell.old) }
    ensures held { seat.new.me.1 ≡ turned seat.old.me.1 }
{
    let Part::Mail(mail) = seat.slot_mut(shared, slot) else {
        unreachable!()
    };
    cell.tell_room(place, mail);
    seat.turn();
}

/// Writes the batch of an out-link of a cell over the mail in the first place, where somebody
/// enters the link. The seat turns to the next place.
pub(crate) fn send_batch<V, K, P: TableRule<Part, V, K>>(
    shared: &Shared<Part, V, K, P>,
    seat: &mut Seat<Part, V>,
    slot: usize,
    cell: &mut NodeCell,
    place: usize,
)
    requires table { seat.old.table_id ≡ shared.now.table_id }
    requires held { HoldsMail slot seat.old.me.1 }
    requires kept { IfMail slot seat.old.me.1
        (λ mail. IsSomeAnd (out_mail place cell.old) (λ there. IsKept there mail)) }
    ensures seat { IsSameSeat seat.old seat.new }
    ensures cell { cell.new ≡ with_out_mail place Mail.Away cell.old }
    ensures held { IfSome (out_mail place cell.old)
        (λ there. seat.new.me.1 ≡ turned ((slot, Part.Mail there) ∷ rest seat.old.me.1)) }
{
    let Part::Mail(mail) = seat.slot_mut(shared, slot) else {
        unreachable!()
    };
    cell.send_batch(place, mail);
    seat.turn();
}

/// Puts those who come with the mail in the first place last on an in-link of a cell, and tells
/// there the room of the next step. The seat turns to the next place.
pub(crate) fn gather_link<V, K, P: TableRule<Part, V, K>>(
    shared: &Shared<Part, V, K, P>,
    seat: &mut Seat<Part, V>,
    slot: usize,
    cell: &mut NodeCell,
    place: usize,
    step: u32,
)
    requires table { seat.old.table_id ≡ shared.now.table_id }
    requires held { HoldsMail slot seat.old.me.1 }
    requires step { step < MOST_HORIZON }
    requires fits { IfMail slot seat.old.me.1 (λ mail. IsSomeAnd (slice_get cell.old.ins place)
        (λ link. length link.line + length (mail_line mail) ≤ MOST_RIDERS)) }
    ensures seat { IsSameSeat seat.old seat.new }
    ensures cell { IfMail slot seat.old.me.1 (λ mail. cell.new ≡ record cell.old {
      ins = changed_at (grown_by mail) place cell.old.ins;
    }) }
    ensures held { IfMail slot seat.old.me.1 (λ mail. IfSome (slice_get cell.old.ins place)
        (λ link. seat.new.me.1
        ≡ turned ((slot, Part.Mail (room_told step mail link)) ∷ rest seat.old.me.1))) }
{
    let Part::Mail(mail) = seat.slot_mut(shared, slot) else {
        unreachable!()
    };
    cell.gather_link(place, mail, step);
    seat.turn();
}

/// Whether somebody comes with the mail in the first place that the seat holds. It stays there, and
/// the seat turns to the next place.
pub(crate) fn brings_somebody<V, K, P: TableRule<Part, V, K>>(
    shared: &Shared<Part, V, K, P>,
    seat: &mut Seat<Part, V>,
    slot: usize,
) -> bool
    requires table { seat.old.table_id ≡ shared.now.table_id }
    requires held { HoldsMail slot seat.old.me.1 }
    ensures seat { IsSameSeat seat.old seat.new }
    ensures nobody { IfMail slot seat.old.me.1 (λ mail. result ≡ false → mail_line mail ≡ []) }
    ensures held { seat.new.me.1 ≡ turned seat.old.me.1 }
{
    let Part::Mail(mail) = seat.slot_mut(shared, slot) else {
        unreachable!()
    };
    let comes = matches!(mail, Mail::Batch { .. });
    seat.turn();
    comes
}

/// Whether it is known that nobody of the cell in the first place that the seat holds is ready in
/// a step. It stays there, which stays the first place.
pub(crate) fn is_quiet<V, K, P: TableRule<Part, V, K>>(
    shared: &Shared<Part, V, K, P>,
    seat: &mut Seat<Part, V>,
    slot: usize,
    step: u32,
) -> bool
    requires table { seat.old.table_id ≡ shared.now.table_id }
    requires held { HoldsCell slot seat.old.me.1 }
    ensures seat { IsSameSeat seat.old seat.new }
    ensures quiet { (cell : CellState) → seat.old.me.1 ≡ (slot, Part.Cell cell) ∷ rest seat.old.me.1
        → result ≡ true → IsQuiet step cell }
    ensures held { seat.new.me.1 ≡ seat.old.me.1 }
{
    let Part::Cell(cell) = seat.slot_mut(shared, slot) else {
        unreachable!()
    };
    cell.is_quiet(step)
}

/// Takes the cell out of the first place that the seat holds, which stays the first one.
pub(crate) fn take_cell<V, K, P: TableRule<Part, V, K>>(
    shared: &Shared<Part, V, K, P>,
    seat: &mut Seat<Part, V>,
    slot: usize,
) -> NotedCell
    requires table { seat.old.table_id ≡ shared.now.table_id }
    requires held { HoldsCell slot seat.old.me.1 }
    ensures seat { IsSameSeat seat.old seat.new }
    ensures cell { seat.old.me.1 ≡ (slot, Part.Cell result) ∷ rest seat.old.me.1 }
    ensures held { seat.new.me.1 ≡ (slot, Part.Out) ∷ rest seat.old.me.1 }
{
    let Part::Cell(cell) = shared.exchange(seat, slot, Part::Out) else {
        unreachable!()
    };
    cell
}

/// Brings a cell into the first place that the seat holds, which stays the first one.
pub(crate) fn give_cell<V, K, P: TableRule<Part, V, K>>(
    shared: &Shared<Part, V, K, P>,
    seat: &mut Seat<Part, V>,
    slot: usize,
    cell: NotedCell,
)
    requires table { seat.old.table_id ≡ shared.now.table_id }
    requires held { HoldsNothing slot seat.old.me.1 }
    ensures seat { IsSameSeat seat.old seat.new }
    ensures held { seat.new.me.1 ≡ (slot, Part.Cell cell) ∷ rest seat.old.me.1 }
{
    let Part::Out = shared.exchange(seat, slot, Part::Cell(cell)) else {
        unreachable!()
    };
}
