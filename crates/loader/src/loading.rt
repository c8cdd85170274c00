// The loading by workers.
ghost use Rattle.std.specs.Prelude.{◌≡◌, ◌≤◌, []};
ghost use Rattle.dta_model.specs.Lent.{plan_of};
ghost use Rattle.dta_model.specs.Sound.{IsSound};
ghost use Rattle.loader.specs.Gates.{gate_of};
ghost use Rattle.loader.specs.Loads.{Loads};
ghost use Rattle.loader.specs.declared.loading.LoadFault.TheVariants as fault;

use crate::crew::perform_all;
use crate::gate::Gate;
use crate::watch::{Watch, Watcher};
use desk_io::{Desk, Failed};
use dta_model::{Loaded, Loading};
use monitors::Board;
use phase_claims::Floor;
use std::alloc::AllocError;
use std::sync::Wait;
use std::thread::Threads;

/// The most workers of a loading.
pub const MOST_WORKERS: u32 = 16;

/// Why a loading by workers gives no journeys.
#[derive(Clone, Copy, Debug, PartialEq, Eq)]
pub enum LoadFault {
    /// There wasn't enough memory.
    Memory,
    /// A watch line couldn't be put. The loading was finished all the same.
    WatchFault,
}

impl From<AllocError> for LoadFault {
    ghost from_gives = { λ _ e. e ≡ fault.Memory };

    fn from(_: AllocError) -> Self {
        LoadFault::Memory
    }
}

/// Loads by so many workers, of which the calling thread is the first and puts the watch lines. A
/// worker waits where units of earlier phases aren't finished. If no thread can be made, the
/// workers run one after another. All memory is taken before the first unit.
pub fn load<R: AllocGlobal + Threads + Wait + Sync, D: Desk + Send, G: Gate + Sync>(
    rt: &R,
    loading: &Loading,
    workers: u32,
    gate: &mut G,
    desk: &mut D,
    watch: Watch,
) -> Result<Loaded, LoadFault>
    requires sound { IsSound (plan_of loading.now) }
    requires least { 1 ≤ workers }
    requires most { workers ≤ MOST_WORKERS }
    ensures { let shown = gate_of G.closes G.last in
        Loads (plan_of loading.now) workers watch
        (D.state desk.old) (D.state desk.new) (shown gate.old) (shown gate.new) result }
{
    let (board, writer, monitor) = Board::new(rt)?;
    let shown = &board;
    let (floor, pass) = Floor::new(rt.alloc(), loading, shown, writer, workers)?;
    let mut watcher = Watcher {
        board: shown,
        watch,
        monitor,
        last: 0,
        failed: false,
    };
    let pass = perform_all(rt, &floor, &*gate, pass, &mut watcher, desk);
    let Ok((loaded, writer, receipt)) = floor.close(pass) else {
        unreachable!()
    };
    gate.closed(receipt);
    match watcher.end(rt, writer, desk) {
        Ok(()) => Ok(loaded),
        Err(Failed) => Err(LoadFault::WatchFault),
    }
}
