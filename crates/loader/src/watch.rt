// The watch lines of a loading, which worker 0 puts while the workers are at work.
ghost use Rattle.std.specs.Prelude.{◌≡◌, ◌<◌, ◌≤◌, false};
ghost use Rattle.desk_io.specs.State.{DeskState};
ghost use Rattle.desk_io.specs.Transfers.{OnlyPuts};
ghost use Rattle.dta_model.specs.declared.plan.Plan.{Plan};
ghost use Rattle.loader.specs.Watching.{AreLinesBy, HasWatched, IsMore, IsSameWatch, IsShown};
ghost use Rattle.pending_text.specs.Outs.{SomeCutOff, SomeOut};
ghost use Rattle.phase_claims.specs.PlacesHome.{posted_in};

use desk_io::{Desk, Failed};
use dta_model::Eight;
use monitors::{Board, MonitorPass, WriterPass};
use reports::put_watch;
use std::sync::Wait;

/// Which watch lines a loading puts: those of an iteration, one for about every so many steps.
/// None where `every` is 0.
#[derive(Clone, Copy, Debug, PartialEq, Eq)]
pub struct Watch {
    pub iteration: u32,
    pub every: u32,
}

/// What worker 0 has to put of a board's states, and what it has put: the steps of its last line,
/// 0 before the first, and whether a put failed.
#[derive(Drop)]
pub struct Watcher<'b> {
    pub board: &'b Board,
    pub watch: Watch,
    pub monitor: MonitorPass,
    pub last: u64,
    pub failed: bool,
}

impl<'b> Watcher<'b> {
    // Puts the line of a state, where no put failed so far.
    fn put_line<D: Desk>(&mut self, desk: &mut D, eight: &Eight)
        requires whole { self.old.failed ≡ false }
        ensures same { IsSameWatch self.old self.new }
        ensures list { self.new.monitor.list ≡ self.old.monitor.list }
        ensures put { (before : DeskState) → HasWatched self.old before (D.state desk.old)
            → IsShown self.old.monitor.list eight.now → IsMore self.old eight.now
            → HasWatched self.new before (D.state desk.new) }
    {
        match put_watch(desk, self.watch.iteration, eight) {
            Ok(()) => self.last = eight.steps,
            Err(Failed) => self.failed = true,
        }
    }

    /// Reads the board, and puts the line of its state where the steps have more whole multiples
    /// of `every` than those of the last line. Once a put failed it does nothing.
    pub fn look<R: Wait, D: Desk>(&mut self, rt: &R, desk: &mut D)
        requires own { self.old.monitor.board ≡ self.old.board.now }
        ensures same { IsSameWatch self.old self.new }
        ensures put { (before : DeskState) → HasWatched self.old before (D.state desk.old)
            → HasWatched self.new before (D.state desk.new) }
    {
        if self.watch.every == 0 || self.failed {
            return;
        }
        let every = u64::from(self.watch.every);
        let eight = self.board.read(rt, &mut self.monitor);
        if self.last / every < eight.steps / every {
            self.put_line(desk, &eight);
        }
    }

    /// Settles with the writer, whose states are those of all steps of a loading, and puts the
    /// line of the last one unless it was put. Failed tells that this put failed or an earlier
    /// one.
    pub fn end<R: Wait, D: Desk>(
        self,
        rt: &R,
        writer: WriterPass,
        desk: &mut D,
    ) -> Result<(), Failed>
        requires own { self.monitor.board ≡ self.board.now }
        requires writer { writer.board ≡ self.board.now }
        ensures put { (p : Plan) (before : DeskState) → 1 ≤ p.horizon
            → writer.list ≡ posted_in p p.horizon → HasWatched self.entry before (D.state desk.old)
            → OnlyPuts (SomeOut (AreLinesBy p self.entry.watch))
            (SomeCutOff (AreLinesBy p self.entry.watch)) before (D.state desk.new) result }
    {
        if self.watch.every == 0 {
            return Ok(());
        }
        let (_, _, eight) = self.board.settle(rt, writer, self.monitor);
        if self.failed {
            return Err(Failed);
        }
        if eight.steps == self.last {
            return Ok(());
        }
        put_watch(desk, self.watch.iteration, &eight)
    }
}
