// Turns of an in-link.
ghost use Rattle.std.specs.Prelude.{◌≡◌, ◌+◌, ◌-◌, ◌<◌, ◌≤◌, map, slice_get, option_copied, Option};
ghost use Rattle.std.specs.Prelude.{Some, None};
ghost use Rattle.node_transfer.specs.Inside.Pass.{place_of, turn_links, used_turn, limit_open};
ghost use Rattle.node_transfer.specs.Inside.Pass.{used_at};
ghost use Rattle.node_transfer.specs.Exits.{opened_turn, closed_turn};

use cell_stages::{LimitedTurn, LimitedTurns};
use net_core::LinkNo;

/// Grants a turn its allowance.
pub fn open_turn(turn: &mut LimitedTurn, step: u32)
    ensures { turn.new ≡ opened_turn step turn.old }
{
    match &mut turn.limit {
        None => {}
        Some(meter) => meter.open(step),
    }
}

/// Ends the step for a turn.
pub fn close_turn(turn: &mut LimitedTurn)
    ensures { turn.new ≡ closed_turn turn.old }
{
    match &mut turn.limit {
        None => {}
        Some(meter) => meter.close(),
    }
}

/// One vehicle turns.
pub fn use_turn(turn: &mut LimitedTurn)
    ensures { turn.new ≡ used_turn turn.old }
{
    match &mut turn.limit {
        None => {}
        Some(meter) => meter.pass(),
    }
}

/// Whether a turn has a pass left. In a step without a limit it always has.
pub fn has_pass(turn: &LimitedTurn) -> bool
    ensures { result ≡ limit_open turn.now.limit }
{
    match &turn.limit {
        None => true,
        Some(meter) => meter.is_unlimited() || meter.left() > 0,
    }
}

/// Grants all turns their allowances.
pub fn open_turns(turns: &mut [LimitedTurn], step: u32)
    ensures { turns.new ≡ map (opened_turn step) turns.old }
{
    for i in 0..turns.len() {
        open_turn(&mut turns[i], step);
    }
}

/// Ends the step for all turns.
pub fn close_turns(turns: &mut [LimitedTurn])
    ensures { turns.new ≡ map closed_turn turns.old }
{
    for i in 0..turns.len() {
        close_turn(&mut turns[i]);
    }
}

/// The place of the turn to a link; their number where there is none.
pub fn turn_to(turns: &[LimitedTurn], link: LinkNo) -> usize
    ensures { result ≡ place_of link.0 (turn_links turns.now) }
{
    let mut place = 0;
    while place < turns.len() && turns[place].to.0 != link.0 {
        place += 1;
    }
    place
}

/// Uses the turn at a place, if one is there.
pub fn use_turn_at(turns: &mut [LimitedTurn], place: usize)
    ensures { turns.new ≡ used_at place turns.old }
{
    if place < turns.len() {
        use_turn(&mut turns[place]);
    }
}

/// Grants all turns their allowances.
pub fn open_all(turns: &mut LimitedTurns, step: u32)
    ensures { turns.new ≡ map (opened_turn step) turns.old }
{
    open_turns(&mut turns.list, step);
}

/// Ends the step for all turns.
pub fn close_all(turns: &mut LimitedTurns)
    ensures { turns.new ≡ map closed_turn turns.old }
{
    close_turns(&mut turns.list);
}

/// One vehicle takes the turn at a place, if one is there.
pub fn use_one(turns: &mut LimitedTurns, place: usize)
    ensures { turns.new ≡ used_at place turns.old }
{
    use_turn_at(&mut turns.list, place);
}

/// The place of the turn to a link; their number where there is none.
pub fn place_of_turn(turns: &LimitedTurns, link: LinkNo) -> usize
    ensures { result ≡ place_of link.0 (turn_links turns.now) }
{
    turn_to(&turns.list, link)
}

/// The turn at a place.
pub fn turn_at(turns: &LimitedTurns, place: usize) -> Option<&LimitedTurn>
    ensures { option_copied result ≡ slice_get turns.now place }
{
    turns.list.get(place)
}
