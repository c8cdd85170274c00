// Floors: one that is closed too early, two passes on one thread that take turns, and two threads
// that work at the same time.
ghost use Rattle.dta_model.specs.Lent.{plan_of};
ghost use Rattle.dta_model.specs.Sound.{IsSound};
ghost use Rattle.dta_model.specs.declared.machine.TheConstants.{MOST_CHUNK};
ghost use Rattle.phase_claims.specs.Crews.{HasSameRights, IsReady};
ghost use Rattle.phase_claims.specs.Passes.{HasNotEnded, IsHeld, IsOf, IsOpen};
ghost use Rattle.std.specs.Prelude.{◌≡◌, ◌≤◌, [], IsTrue};
ghost use Rattle.worked_cases.specs.Worked.{HasWorked};

use crate::{Seen, are_seen, two_links_in_a_line};
use dta_model::{Loaded, Loading};
use monitors::Board;
use net_core::{Memory, NodeNo};
use phase_claims::{Early, Floor, Open, Pass, Receipt, Stage, UnitKind};
use std::sync::Wait;
use std::test::Fail;
use std::thread;
use std::thread::{Threads, join_mut};

// Performs the unit that a pass is at.
fn perform<R: Wait>(rt: &R, floor: &Floor, pass: &mut Pass)
    requires own { IsOf floor.now pass.old }
    requires open { IsOpen pass.old.view.stage }
    ensures own { IsOf floor.now pass.new }
    ensures on { HasNotEnded pass.new.view.stage }
    ensures rights { HasSameRights pass.old.view pass.new.view }
{
    match floor.next_unit(pass).kind {
        UnitKind::Posting => floor.perform_posting(rt, pass),
        _ => floor.perform(pass),
    }
}

// Opens the unit that a pass holds, as soon as all units of earlier phases are finished.
fn open<R: Wait>(rt: &R, floor: &Floor, pass: &mut Pass)
    requires own { IsOf floor.now pass.old }
    requires held { IsHeld pass.old.view.stage }
    ensures own { IsOf floor.now pass.new }
    ensures open { IsOpen pass.new.view.stage }
    ensures rights { HasSameRights pass.old.view pass.new.view }
{
    for _ in rt.forever() {
        match floor.open(pass) {
            Open::Yes => break,
            Open::NotYet { finished: _ } => thread::yield_now(),
        }
    }
}

// Opens the units that a pass holds, and performs them.
fn work_on<R: Wait>(rt: &R, floor: &Floor, pass: &mut Pass)
    requires own { IsOf floor.now pass.old }
    requires on { HasNotEnded pass.old.view.stage }
    ensures own { IsOf floor.now pass.new }
    ensures idle { pass.new.view.stage ≡ Stage.Idle }
    ensures rights { HasSameRights pass.old.view pass.new.view }
{
    for _ in rt.forever() {
        match pass.stage() {
            Stage::Idle | Stage::Ended => break,
            Stage::Held(_, _) => open(rt, floor, pass),
            Stage::Open(_, _, _) => perform(rt, floor, pass),
        }
    }
}

// Works for so many turns, or until no unit is left.
fn work_turns<R: Wait>(rt: &R, floor: &Floor, pass: &mut Pass, turns: u32)
    requires { IsReady floor.now 1 pass.old }
    ensures { HasWorked floor.now 1 pass.new }
{
    for _ in 0..turns {
        let Some(_) = floor.claim(pass) else {
            break;
        };
        work_on(rt, floor, pass);
    }
}

// Whether a floor on which nothing was done says so at its close.
fn closes_at_once<R: AllocGlobal + Wait>(rt: &R, loading: &Loading) -> Result<bool, Memory>
    requires { IsSound (plan_of loading.now) }
{
    let (board, writer, _monitor) = Board::new(rt)?;
    let (floor, pass) = Floor::new(rt.alloc(), loading, &board, writer, 1)?;
    match floor.close(pass) {
        Err(Early { finished }) => Ok(finished == 0),
        Ok(_) => Ok(false),
    }
}

#[test]
fn a_new_floor_closes_too_early(rt: HostRuntime) -> Result<(), Fail> {
    let case = two_links_in_a_line(rt.alloc())?;
    assert!(rt; closes_at_once(&rt, &case.loading())?);
    Ok(())
}

// Whether the next unit is that of a number, which can be opened at once. It is performed then.
fn performs<R: Wait>(rt: &R, floor: &Floor, pass: &mut Pass, number: u64) -> bool
    requires own { IsOf floor.now pass.old }
    requires idle { pass.old.view.stage ≡ Stage.Idle }
    ensures own { IsOf floor.now pass.new }
    ensures idle { IsTrue result → pass.new.view.stage ≡ Stage.Idle }
{
    let Some(unit) = floor.claim(pass) else {
        return false;
    };
    let Open::Yes = floor.open(pass) else {
        return false;
    };
    perform(rt, floor, pass);
    if let Stage::Idle = pass.stage() {
        return unit.number == number;
    }
    false
}

// The first pass claims a unit and takes its time. The second performs two, and has to wait with
// the next, which is of the second phase, until the first has performed its own.
fn take_turns<R: Wait>(rt: &R, floor: &Floor, mut first: Pass, mut second: Pass) -> bool
    requires own { IsOf floor.now first }
    requires own_too { IsOf floor.now second }
    requires idle { first.view.stage ≡ Stage.Idle }
    requires idle_too { second.view.stage ≡ Stage.Idle }
{
    let Some(slow) = floor.claim(&mut first) else {
        return false;
    };
    if !performs(rt, floor, &mut second, 1) || !performs(rt, floor, &mut second, 2) {
        return false;
    }
    let Some(next) = floor.claim(&mut second) else {
        return false;
    };
    let Open::NotYet { finished } = floor.open(&mut second) else {
        return false;
    };
    let Open::Yes = floor.open(&mut first) else {
        return false;
    };
    perform(rt, floor, &mut first);
    let Open::Yes = floor.open(&mut second) else {
        return false;
    };
    slow.number == 0
        && finished == 2
        && next.number == 3
        && next.step == 0
        && next.kind == UnitKind::Gather(NodeNo(0))
}

// Whether two passes of a floor take turns so.
fn take_turns_at_once<R: AllocGlobal + Wait>(rt: &R, loading: &Loading) -> Result<bool, Memory>
    requires { IsSound (plan_of loading.now) }
{
    let (board, writer, _monitor) = Board::new(rt)?;
    let (floor, pass) = Floor::new(rt.alloc(), loading, &board, writer, 2)?;
    let (first, second) = floor.split(pass);
    Ok(first.spare() == 0 && second.spare() == 0 && take_turns(rt, &floor, first, second))
}

#[test]
fn two_passes_take_turns(rt: HostRuntime) -> Result<(), Fail> {
    let case = two_links_in_a_line(rt.alloc())?;
    assert!(rt; take_turns_at_once(&rt, &case.loading())?);
    Ok(())
}

// Two threads work for so many turns each.
fn work_side_by_side<R: Threads + Wait + Sync>(
    rt: &R,
    floor: &Floor,
    pass: Pass,
    turns: u32,
) -> Pass
    requires { IsReady floor.now 2 pass }
    ensures { HasWorked floor.now 2 result }
{
    let (mut first, mut second) = floor.split(pass);
    join_mut(
        rt,
        &mut ||
            requires { IsReady floor.now 1 first }
            ensures { HasWorked floor.entry.now 1 first.exit }
        { work_turns(rt, floor, &mut first, turns) },
        &mut ||
            requires { IsReady floor.now 1 second }
            ensures { HasWorked floor.entry.now 1 second.exit }
        { work_turns(rt, floor, &mut second, turns) },
    );
    floor.join(first, second)
}

// A loading by two threads that take so many turns each, with its receipt, unless units are left.
fn by_two<R: AllocGlobal + Threads + Wait + Sync>(
    rt: &R,
    loading: &Loading,
    turns: u32,
) -> Result<Option<(Loaded, Receipt)>, Memory>
    requires { IsSound (plan_of loading.now) }
{
    let (board, writer, _monitor) = Board::new(rt)?;
    let (floor, pass) = Floor::new(rt.alloc(), loading, &board, writer, 2)?;
    let pass = work_side_by_side(rt, &floor, pass, turns);
    match floor.close(pass) {
        Ok((loaded, _, receipt)) => Ok(Some((loaded, receipt))),
        Err(Early { finished: _ }) => Ok(None),
    }
}

// Whether each can perform half of the units, waiting for the other at the beginning of each
// phase.
fn take_half_each<R: AllocGlobal + Threads + Wait + Sync>(
    rt: &R,
    loading: &Loading,
) -> Result<bool, Memory>
    requires { IsSound (plan_of loading.now) }
{
    let wanted = [
        Seen(&[5, 15], Some(25)),
        Seen(&[15, 25], Some(35)),
        Seen(&[25, 35], Some(45)),
    ];
    match by_two(rt, loading, 210)? {
        Some((loaded, receipt)) => Ok(receipt.passes() == 2 && are_seen(&loaded, &wanted)),
        None => Ok(false),
    }
}

#[test]
fn two_threads_take_half_the_units_each(rt: HostRuntime) -> Result<(), Fail> {
    let case = two_links_in_a_line(rt.alloc())?;
    assert!(rt; take_half_each(&rt, &case.loading())?);
    Ok(())
}

// Whether one pass performs all units, and then another could go on at once: there is no next unit,
// as it finds where it draws so many numbers past the last.
fn goes_on_past_the_last<R: Wait>(rt: &R, floor: &Floor, pass: Pass, past: u32) -> bool
    requires ready { IsReady floor.now 2 pass }
    requires least { 1 ≤ past }
    requires most { past ≤ MOST_CHUNK }
{
    let (mut first, mut second) = floor.split(pass);
    work_turns(rt, floor, &mut first, u32::MAX);
    floor.can_open_next() && floor.claim_chunk(&mut second, past).is_none() && floor.can_open_next()
}

// The same of a loading, on a floor of its own.
fn ends_past_the_last<R: AllocGlobal + Wait>(
    rt: &R,
    loading: &Loading,
    past: u32,
) -> Result<bool, Memory>
    requires sound { IsSound (plan_of loading.now) }
    requires least { 1 ≤ past }
    requires most { past ≤ MOST_CHUNK }
{
    let (board, writer, _monitor) = Board::new(rt)?;
    let (floor, pass) = Floor::new(rt.alloc(), loading, &board, writer, 2)?;
    Ok(goes_on_past_the_last(rt, &floor, pass, past))
}

#[test]
fn who_finds_no_unit_goes_on(rt: HostRuntime) -> Result<(), Fail> {
    let case = two_links_in_a_line(rt.alloc())?;
    for past in 1..8 {
        assert!(rt; ends_past_the_last(&rt, &case.loading(), past)?);
    }
    Ok(())
}
