// The workers of a loading.
ghost use Rattle.std.specs.Prelude.{◌≡◌, ◌<◌, ◌≤◌, ◌+◌, ◌-◌};
ghost use Rattle.std.specs.Thread.{IsSync};
ghost use Rattle.desk_io.specs.State.{DeskState};
ghost use Rattle.dta_model.specs.Machine.{left_of};
ghost use Rattle.loader.specs.Crews.{HasCrewEnded, IsAtFirst, IsCrewReady};
ghost use Rattle.phase_claims.specs.Crews.{HasEnded, HasSameRights, IsReady};
ghost use Rattle.loader.specs.Watching.{HasWatched, IsSameWatch};
ghost use Rattle.loader.specs.declared.loading.TheConstants.{MOST_WORKERS};
ghost use Rattle.phase_claims.specs.Passes.{IsHeld, IsOf};

use crate::gate::Gate;
use crate::pauses::Pauses;
use crate::shares::{chunk_of, stand_by, stands_by};
use crate::watch::Watcher;
use desk_io::Desk;
use phase_claims::{Floor, Open, Pass, Stage, UnitKind};
use std::sync::Wait;
use std::thread::{Threads, join_mut};

// The microseconds of the longest sleep of a worker that holds a unit, for which others wait, and
// of one that holds none.
const SLEEP_WITH_UNIT: u32 = 100;

const SLEEP_WITHOUT: u32 = 2000;

// Waits until the next unit could be opened at once. So a worker seldom holds a unit while it
// waits, and the others can do without it.
fn wait_for_unit<R: Wait>(rt: &R, floor: &Floor) {
    if floor.can_open_next() {
        return;
    }
    let mut pauses = Pauses::up_to(SLEEP_WITHOUT);
    for _ in rt.forever() {
        pauses.take(rt);
        if floor.can_open_next() {
            break;
        }
    }
}

// Opens units that a pass holds, as soon as all units of earlier phases are finished. It is at the
// first of them then.
fn open<R: Wait>(rt: &R, floor: &Floor, pass: &mut Pass)
    requires own { IsOf floor.now pass.old }
    requires held { IsHeld pass.old.view.stage }
    ensures own { IsOf floor.now pass.new }
    ensures first { IsAtFirst pass.new.view }
    ensures rights { HasSameRights pass.old.view pass.new.view }
{
    let Open::NotYet { finished: _ } = floor.open(pass) else {
        return;
    };
    let mut pauses = Pauses::up_to(SLEEP_WITH_UNIT);
    for _ in rt.forever() {
        pauses.take(rt);
        if let Open::Yes = floor.open(pass) {
            break;
        }
    }
}

// Performs the units that a pass has open, each once the gate is passed.
fn perform_open<R: Wait, G: Gate>(rt: &R, floor: &Floor, gate: &G, pass: &mut Pass, worker: u32)
    requires own { IsOf floor.now pass.old }
    requires first { IsAtFirst pass.old.view }
    ensures own { IsOf floor.now pass.new }
    ensures left { pass.new.view.stage ≡ left_of pass.old.view.stage }
    ensures rights { HasSameRights pass.old.view pass.new.view }
{
    let Stage::Open(first, middle, _) = pass.stage() else {
        unreachable!()
    };
    for number in first..middle {
        gate.at(worker, number);
        match floor.next_unit(pass).kind {
            UnitKind::Posting => floor.perform_posting(rt, pass),
            _ => floor.perform(pass),
        }
    }
}

// Performs all units that a pass holds.
fn work_on<R: Wait, G: Gate>(rt: &R, floor: &Floor, gate: &G, pass: &mut Pass, worker: u32)
    requires own { IsOf floor.now pass.old }
    requires held { IsHeld pass.old.view.stage }
    ensures own { IsOf floor.now pass.new }
    ensures idle { pass.new.view.stage ≡ Stage.Idle }
    ensures rights { HasSameRights pass.old.view pass.new.view }
{
    for _ in rt.forever() {
        let Stage::Held(_, _) = pass.stage() else {
            break;
        };
        open(rt, floor, pass);
        perform_open(rt, floor, gate, pass, worker);
    }
}

// Works until no unit is left. Who stands by works only where the others don't get on.
fn work<R: Wait, G: Gate>(rt: &R, floor: &Floor, gate: &G, pass: &mut Pass, worker: u32)
    requires { IsReady floor.now 1 pass.old }
    ensures { HasEnded floor.now 1 pass.new }
{
    let chunk = chunk_of(floor);
    let helps = stands_by(floor, worker);
    for _ in rt.forever() {
        if helps {
            stand_by(rt, floor);
        }
        wait_for_unit(rt, floor);
        let Some(_) = floor.claim_chunk(pass, chunk) else {
            break;
        };
        work_on(rt, floor, gate, pass, worker);
    }
}

// A crew of so many workers, of which the first has this number. It takes no memory.
pub(crate) fn crew<R: Threads + Wait + Sync, G: Gate + Sync>(
    rt: &R,
    floor: &Floor,
    gate: &G,
    pass: Pass,
    worker: u32,
    count: u32,
) -> Pass
    requires ready { IsReady floor.now count pass }
    requires few { worker + count ≤ MOST_WORKERS }
    ensures { HasEnded floor.now count result }
{
    if count == 1 {
        let mut pass = pass;
        work(rt, floor, gate, &mut pass, worker);
        return pass;
    }
    let (rest, mut mine) = floor.split(pass);
    let mut rest = Some(rest);
    join_mut(
        rt,
        &mut ||
            requires { IsSync R.row × IsSync G.row × IsCrewReady floor.now (count - 1) rest
                × (1 < count) × (worker + count ≤ MOST_WORKERS) }
            ensures { HasCrewEnded floor.entry.now (count - 1) rest.exit }
        {
            if let Some(pass) = rest.take() {
                rest = Some(crew(rt, floor, gate, pass, worker + 1, count - 1));
            }
        },
        &mut ||
            requires { IsReady floor.now 1 mine }
            ensures { HasEnded floor.entry.now 1 mine.exit }
        { work(rt, floor, gate, &mut mine, worker) },
    );
    match rest {
        Some(rest) => floor.join(mine, rest),
        None => unreachable!(),
    }
}

// Worker 0 works until no unit is left, and puts watch lines meanwhile.
fn lead<R: Wait, G: Gate, D: Desk>(
    rt: &R,
    floor: &Floor,
    gate: &G,
    pass: &mut Pass,
    watcher: &mut Watcher,
    desk: &mut D,
)
    requires ready { IsReady floor.now 1 pass.old }
    requires own { watcher.old.monitor.board ≡ watcher.old.board.now }
    ensures ended { HasEnded floor.now 1 pass.new }
    ensures same { IsSameWatch watcher.old watcher.new }
    ensures put { (before : DeskState) → HasWatched watcher.old before (D.state desk.old)
        → HasWatched watcher.new before (D.state desk.new) }
{
    let chunk = chunk_of(floor);
    for _ in rt.forever() {
        wait_for_unit(rt, floor);
        let Some(_) = floor.claim_chunk(pass, chunk) else {
            break;
        };
        work_on(rt, floor, gate, pass, 0);
        watcher.look(rt, desk);
    }
}

/// Performs all units of a floor, by a worker for each pass that can be split off, and the calling
/// thread, worker 0, which puts the watch lines meanwhile. If no thread can be made, the workers
/// run one after another. It takes no memory.
pub fn perform_all<R: Threads + Wait + Sync, G: Gate + Sync, D: Desk + Send>(
    rt: &R,
    floor: &Floor,
    gate: &G,
    pass: Pass,
    watcher: &mut Watcher,
    desk: &mut D,
) -> Pass
    requires ready { IsReady floor.now (pass.view.spare + 1) pass }
    requires few { pass.view.spare < MOST_WORKERS }
    requires own { watcher.old.monitor.board ≡ watcher.old.board.now }
    ensures ended { HasEnded floor.now (pass.view.spare + 1) result }
    ensures same { IsSameWatch watcher.old watcher.new }
    ensures put { (before : DeskState) → HasWatched watcher.old before (D.state desk.old)
        → HasWatched watcher.new before (D.state desk.new) }
{
    let others = pass.spare();
    if others == 0 {
        let mut pass = pass;
        lead(rt, floor, gate, &mut pass, watcher, desk);
        return pass;
    }
    let (rest, mut mine) = floor.split(pass);
    let mut rest = Some(rest);
    join_mut(
        rt,
        &mut ||
            requires { IsSync R.row × IsSync G.row × IsCrewReady floor.now others rest
                × (1 ≤ others) × (others < MOST_WORKERS) }
            ensures { HasCrewEnded floor.entry.now others rest.exit }
        {
            if let Some(pass) = rest.take() {
                rest = Some(crew(rt, floor, gate, pass, 1, others));
            }
        },
        &mut ||
            requires { IsReady floor.now 1 mine
                × (watcher.now.monitor.board ≡ watcher.now.board.now) }
            ensures { HasEnded floor.entry.now 1 mine.exit
                × IsSameWatch watcher.entry.now watcher.exit.now
                × ((before : DeskState)
                → HasWatched watcher.entry.now before (D.state desk.entry.now)
                → HasWatched watcher.exit.now before (D.state desk.exit.now)) }
        { lead(rt, floor, gate, &mut mine, watcher, desk) },
    );
    match rest {
        Some(rest) => floor.join(mine, rest),
        None => unreachable!(),
    }
}
