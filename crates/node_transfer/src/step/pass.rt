// One pass over one in-link.
ghost use Rattle.std.specs.Prelude.{◌≡◌, ℕ, ◌+◌, ◌-◌, ◌<◌, ◌≤◌, length, IfSome, IsSomeAnd, nat_le};
ghost use Rattle.std.specs.Prelude.{All, slice_get, drop, IsTrue, true, false, None, Some};
ghost use Rattle.node_transfer.specs.Inside.Pass.{head_action, passed, CanPass, NobodyPasses};
ghost use Rattle.node_transfer.specs.Inside.Pass.{Rides, out_links, total, waitings, entered_at};
ghost use Rattle.node_transfer.specs.Inside.Pass.{turn_open, out_open, is_entry, after_arrival};
ghost use Rattle.node_transfer.specs.Inside.Pass.{after_entry};
ghost use Rattle.node_transfer.specs.Exits.{opened_exit, closed_exit};

use crate::step::out_link::place_to;
use crate::step::turn::{close_all, has_pass, open_all, place_of_turn, turn_at, use_one};
use cell_stages::{Exit, LimitedTurns, OutLink};
use link_queues::{Line, MOST_RIDERS, Rider};

/// What the head of a line does.
#[derive(Drop)]
pub enum HeadAction {
    Stays,
    Arrives,
    Enters(usize, usize),
}

/// Grants an exit its allowances.
pub fn open_exit(exit: &mut Exit, step: u32)
    ensures { exit.new ≡ opened_exit step exit.old }
{
    exit.outflow.open(step);
    open_all(&mut exit.turns, step);
}

/// Ends the step for an exit.
pub fn close_exit(exit: &mut Exit)
    ensures { exit.new ≡ closed_exit exit.old }
{
    exit.outflow.close();
    close_all(&mut exit.turns);
}

/// Whether it is seen at once that the head of a line doesn't move: nobody more may enter the link
/// that it goes to.
pub fn is_kept_out(line: &Line, outs: &[OutLink]) -> bool
    requires { All (Rides (out_links outs.now)) line.now }
    ensures { result ≡ true → NobodyPasses line.now outs.now }
{
    match line.front() {
        None => false,
        Some(rider) => match rider.next_link() {
            None => false,
            Some(link) => outs[place_to(outs, link)].inflow.left() == 0,
        },
    }
}

/// Whether a rider that is ready at a step may take the turn at a place into the out-link at a
/// place.
pub fn may_enter(
    turns: &LimitedTurns,
    outs: &[OutLink],
    ready: u64,
    step: u32,
    place: usize,
    turn: usize,
) -> bool
    requires there { place < length outs.now }
    ensures { result ≡ is_entry step ready turns.now outs.now place turn }
{
    match turn_at(turns, turn) {
        None => ready <= step as u64 && outs[place].inflow.left() > 0,
        Some(way) => outs[place].inflow.left() > 0
            && is_served(ready, way.penalty, step)
            && has_pass(way),
    }
}

/// Whether one that is ready at a step has served the penalty of a turn by another.
pub fn is_served(ready: u64, penalty: u32, step: u32) -> bool
    ensures { result ≡ nat_le (ready + penalty) step }
{
    ready <= step as u64 && penalty as u64 <= step as u64 - ready
}

/// What the rider does next.
#[tactic(auto, unfolding(crate::specs::Inside::Pass::head_action))]
pub fn judge(rider: &Rider, exit: &Exit, outs: &[OutLink], step: u32) -> HeadAction
    requires { Rides (out_links outs.now) rider.now }
    ensures value { result ≡ head_action step exit.now outs.now rider.now }
    ensures enters { (p k : ℕ) → result ≡ HeadAction.Enters p k → p < length outs.now }
{
    let ready = match rider.last_entry() {
        Some(entry) => entry as u64 + exit.free as u64,
        None => return HeadAction::Stays,
    };
    if ready > step as u64 {
        return HeadAction::Stays;
    }
    let action = match rider.next_link() {
        None => HeadAction::Arrives,
        Some(link) => {
            let place = place_to(outs, link);
            let turn = place_of_turn(&exit.turns, link);
            if !may_enter(&exit.turns, outs, ready, step, place, turn) {
                return HeadAction::Stays;
            }
            HeadAction::Enters(place, turn)
        }
    };
    if exit.outflow.left() > 0 {
        action
    } else {
        HeadAction::Stays
    }
}

/// One vehicle arrives at the end of the link.
pub fn count_arrival(exit: &mut Exit)
    ensures { exit.new ≡ after_arrival exit.old }
{
    exit.outflow.pass();
}

/// One vehicle leaves by the turn at a place.
pub fn count_entry(exit: &mut Exit, turn: usize)
    ensures { exit.new ≡ after_entry turn exit.old }
{
    exit.outflow.pass();
    use_one(&mut exit.turns, turn);
}

/// Moves the head of the line, where it may move, and says whether it did.
#[tactic(auto, using(crate::proofs::OfStep::Passes::pass_steps))]
pub fn advance(
    line: &mut Line,
    exit: &mut Exit,
    outs: &mut [OutLink],
    arrived: &mut Line,
    step: u32,
) -> bool
    requires { CanPass line.old outs.old arrived.old }
    ensures kept { CanPass line.new outs.new arrived.new }
    ensures links { out_links outs.new ≡ out_links outs.old }
    ensures waits { waitings outs.new ≡ waitings outs.old }
    ensures total { total line.new outs.new arrived.new ≤ total line.old outs.old arrived.old }
    ensures goes { passed step line.old exit.old outs.old arrived.old
        ≡ passed step line.new exit.new outs.new arrived.new }
    ensures shorter { IsTrue result → length line.new + 1 ≡ length line.old }
    ensures done { result ≡ false → passed step line.new exit.new outs.new arrived.new
        ≡ record { line = line.new; exit = exit.new; outs = outs.new; arrived = arrived.new } }
{
    let what = match line.front() {
        None => return false,
        Some(rider) => judge(rider, exit, outs, step),
    };
    match what {
        HeadAction::Stays => false,
        HeadAction::Arrives => {
            line.move_front_to(arrived, step);
            count_arrival(exit);
            true
        }
        HeadAction::Enters(place, turn) => {
            let out = &mut outs[place];
            line.move_front_to(&mut out.batch, step);
            out.inflow.pass();
            count_entry(exit, turn);
            true
        }
    }
}
