// A transfer tells those nodes to which it sends somebody, by a word for each node. Where queues
// have a bound, it tells its own node too. So an idle gather looks at one word, and not at its
// in-links.
ghost use Rattle.atomic_table.specs.Table.{turned};
ghost use Rattle.cell_stages.specs.Contents.{away};
ghost use Rattle.claim_core.specs.Kinds.{half_by};
ghost use Rattle.claim_core.specs.Sums.{times};
ghost use Rattle.dta_model.specs.Lent.{plan_of};
ghost use Rattle.dta_model.specs.Units.{node_count, step_of, task_of};
ghost use Rattle.node_transfer.specs.Gathered.{mail_line};
ghost use Rattle.node_transfer.specs.Halves.{IsHalf, leaving_cell, left_mail, links_of};
ghost use Rattle.node_transfer.specs.Halves.{taken_mail, taking_cell};
ghost use Rattle.phase_claims.specs.Noted.{Rests};
ghost use Rattle.phase_claims.specs.Passes.{IsOpen};
ghost use Rattle.phase_claims.specs.PlacesHeld.{HoldsCell, HoldsMail, IfMail, IsSameSeat};
ghost use Rattle.phase_claims.specs.PlacesHeld.{node_places};
ghost use Rattle.phase_claims.specs.Scopes.{scope_of};
ghost use Rattle.phase_claims.specs.Told.{AreAmong, HasOnlyTold, KeepsRooms};
ghost use Rattle.std.specs.Prelude.{◌≡◌, ◌≢◌, ◌⊎◌, ◌+◌, ◌*◌, ◌≤◌, ◌<◌, [], Some, true};

use crate::part::Part;
use crate::rule::{Claiming, Key, PassSeat, See, Tell};
use crate::view::View;
use crate::work::{brings_somebody, is_quiet};
use atomic_table::Shared;
use dta_model::{Loading, Queue};
use net_core::NodeNo;
use node_transfer::{Half, HalfStep};

/// The words and the places of a floor.
pub(crate) type Words<'a> = Shared<Part, View, Key<'a>, Claiming>;

/// The word of the first node, behind those that all passes change. The others follow.
pub const FIRST_NODE_WORD: usize = 24;

/// Whether it is known that a half changes nothing: a transfer, where nobody of the cell is ready,
/// and a gather, where the node isn't told either. All stays in its place.
pub(crate) fn rests(shared: &Words, seat: &mut PassSeat, half: HalfStep) -> bool
    requires table { seat.old.table_id ≡ shared.now.table_id }
    requires words { FIRST_NODE_WORD + half.node.0 < shared.now.table_id.words }
    requires scope { seat.old.me.0.scope ≡ scope_of shared.now.key }
    requires open { IsOpen seat.old.me.0.stage }
    requires weight { 1 ≤ seat.old.me.0.weight }
    requires step { IsHalf seat.old.me.0.scope.plan half }
    requires unit { half_by (step_of (node_count seat.old.me.0.scope.plan) seat.old.me.0.at)
        (task_of (node_count seat.old.me.0.scope.plan) seat.old.me.0.at) ≡ Some half }
    requires held { seat.old.me.1 ≡ node_places seat.old.me.0.scope.plan half.node.0
        (taking_cell seat.old.me.0.scope.plan half away)
        (taken_mail seat.old.me.0.scope.plan half) (links_of seat.old.me.0.scope.plan half) }
    ensures seat { IsSameSeat seat.old seat.new }
    ensures rests { result ≡ true → Rests seat.old.me.0.scope.plan half }
    ensures held { seat.new.me.1 ≡ seat.old.me.1 }
{
    let node = half.node.0 as usize;
    match half.half {
        Half::Transfer => is_quiet(shared, seat, node, half.step),
        Half::Gather => gather_rests(shared, seat, half),
    }
}

// The same of a gather. It is worked on, too, where it isn't known when somebody of the cell is
// ready: so it gets known.
fn gather_rests(shared: &Words, seat: &mut PassSeat, half: HalfStep) -> bool
    requires gather { half.half ≡ Half.Gather }
    requires table { seat.old.table_id ≡ shared.now.table_id }
    requires words { FIRST_NODE_WORD + half.node.0 < shared.now.table_id.words }
    requires scope { seat.old.me.0.scope ≡ scope_of shared.now.key }
    requires open { IsOpen seat.old.me.0.stage }
    requires weight { 1 ≤ seat.old.me.0.weight }
    requires step { IsHalf seat.old.me.0.scope.plan half }
    requires unit { half_by (step_of (node_count seat.old.me.0.scope.plan) seat.old.me.0.at)
        (task_of (node_count seat.old.me.0.scope.plan) seat.old.me.0.at) ≡ Some half }
    requires held { HoldsCell half.node.0 seat.old.me.1 }
    ensures seat { IsSameSeat seat.old seat.new }
    ensures rests { result ≡ true → Rests seat.old.me.0.scope.plan half }
    ensures held { seat.new.me.1 ≡ seat.old.me.1 }
{
    let node = half.node.0 as usize;
    let told = shared.load::<See>(seat, FIRST_NODE_WORD + node);
    if told > 2 * half.step as u64 + 1 {
        return false;
    }
    is_quiet(shared, seat, node, half.step)
}

// Tells a node that it isn't still in a step.
fn tell(shared: &Words, seat: &mut PassSeat, node: NodeNo, step: u32)
    requires table { seat.old.table_id ≡ shared.now.table_id }
    requires words { FIRST_NODE_WORD + node.0 < shared.now.table_id.words }
    requires node { node.0 < node_count seat.old.me.0.scope.plan }
    requires weight { 1 ≤ seat.old.me.0.weight }
    requires now { step ≡ step_of (node_count seat.old.me.0.scope.plan) seat.old.me.0.at }
    ensures seat { HasOnlyTold seat.old seat.new }
    ensures told { 1 ≤ times node.0 seat.new.me.0.told }
    ensures held { seat.new.me.1 ≡ seat.old.me.1 }
{
    let told = 2 * step as u64 + 2;
    shared.fetch_max::<Tell>(seat, FIRST_NODE_WORD + node.0 as usize, told);
}

// Tells the node at the end of a link where somebody comes with the mail in the first place. The
// seat turns to the next place.
fn tell_end(shared: &Words, seat: &mut PassSeat, slot: usize, node: NodeNo, step: u32)
    requires table { seat.old.table_id ≡ shared.now.table_id }
    requires words { FIRST_NODE_WORD + node.0 < shared.now.table_id.words }
    requires node { node.0 < node_count seat.old.me.0.scope.plan }
    requires weight { 1 ≤ seat.old.me.0.weight }
    requires now { step ≡ step_of (node_count seat.old.me.0.scope.plan) seat.old.me.0.at }
    requires held { HoldsMail slot seat.old.me.1 }
    ensures seat { HasOnlyTold seat.old seat.new }
    ensures told { IfMail slot seat.old.me.1
        (λ mail. mail_line mail ≢ [] → 1 ≤ times node.0 seat.new.me.0.told) }
    ensures held { seat.new.me.1 ≡ turned seat.old.me.1 }
{
    if !brings_somebody(shared, seat, slot) {
        return;
    }
    tell(shared, seat, node, step);
}

// Tells the node of a transfer, where queues have a bound: its rooms may change.
fn tell_own(shared: &Words, seat: &mut PassSeat, loading: &Loading, half: HalfStep)
    requires table { seat.old.table_id ≡ shared.now.table_id }
    requires words { FIRST_NODE_WORD + half.node.0 < shared.now.table_id.words }
    requires node { half.node.0 < node_count seat.old.me.0.scope.plan }
    requires weight { 1 ≤ seat.old.me.0.weight }
    requires now { half.step ≡ step_of (node_count seat.old.me.0.scope.plan) seat.old.me.0.at }
    ensures seat { HasOnlyTold seat.old seat.new }
    ensures own { KeepsRooms (plan_of loading.now) half.node.0 half.step
        ⊎ (1 ≤ times half.node.0 seat.new.me.0.told) }
    ensures held { seat.new.me.1 ≡ seat.old.me.1 }
{
    if let Queue::Point = loading.queue {
        return;
    }
    tell(shared, seat, half.node, half.step);
}

/// Tells the nodes to which the transfer of a step sent somebody, by the mail that it left, and its
/// own node where its rooms may change. The seat turns to where it was.
pub(crate) fn tell_all(shared: &Words, seat: &mut PassSeat, loading: &Loading, half: HalfStep)
    requires table { seat.old.table_id ≡ shared.now.table_id }
    requires words { FIRST_NODE_WORD + node_count (plan_of loading.now)
        ≤ shared.now.table_id.words }
    requires plan { plan_of loading.now ≡ seat.old.me.0.scope.plan }
    requires weight { 1 ≤ seat.old.me.0.weight }
    requires step { IsHalf (plan_of loading.now) half }
    requires transfer { half.half ≡ Half.Transfer }
    requires now { half.step ≡ step_of (node_count (plan_of loading.now)) seat.old.me.0.at }
    requires held { seat.old.me.1 ≡ node_places (plan_of loading.now) half.node.0
        (leaving_cell (plan_of loading.now) half away) (left_mail (plan_of loading.now) half)
        (links_of (plan_of loading.now) half) }
    ensures seat { HasOnlyTold seat.old seat.new }
    ensures told { AreAmong (plan_of loading.now) half.node.0 half.step seat.new.me.0.told }
    ensures held { seat.new.me.1 ≡ seat.old.me.1 }
{
    let nodes = loading.net.node_count() as usize;
    let outs = loading.net.outs(half.node);
    tell_own(shared, seat, loading, half);
    seat.turn();
    for place in 0..outs.len() {
        let link = outs[place];
        let to = loading.net.link(link).to;
        tell_end(shared, seat, nodes + link.0 as usize, to, half.step);
    }
}
