// The receipts of runs by workers, and that they work side by side.
use crate::tests::{ASSIGN, NODES, desk_of, has_taken_all, status_of, two_links, words_in};
use desk_io::MemDesk;
use dta_run::{CountGate, Gate, Status, run_without_workers, takes_workers};
use dta_words::{Words, settings};
use phase_claims::Receipt;
use std::hint;
use std::sync::Wait;
use std::sync::atomic::{AtomicBool, Ordering};
use std::test::Fail;
use std::thread::Threads;

const A_WAY_ROUND: &[u8] = b"link_id,from_node_id,to_node_id,length,lanes,free_speed,capacity\n\
20,1,2,1000,1,60,3600\n30,2,3,1000,1,60,600\n40,1,3,2100,1,60,3600\n";

const FOUR_VEHICLES: &[u8] = b"o_zone_id,d_zone_id,volume\n1,3,4\n";

// Whether a run is done, with these numbers in its gate.
fn gives<R: AllocGlobal + Threads + Wait + Sync>(
    rt: &R,
    line: &str,
    mut desk: MemDesk,
    wanted: CountGate,
) -> Result<bool, Fail> {
    let words = words_in(rt.alloc(), line)?;
    let mut gate = CountGate::new();
    Ok(status_of(rt, &words, &mut desk, &mut gate) == Status::Done && gate == wanted)
}

#[test]
fn four_workers_give_a_receipt(rt: HostRuntime) -> Result<(), Fail> {
    let receipt = CountGate {
        closes: 1,
        units: 420,
        passes: 4,
        vehicles: 3,
    };
    assert!(rt; gives(&rt, ASSIGN, two_links(rt.alloc())?, receipt)?);
    Ok(())
}

#[test]
fn the_plain_loader_gives_none(rt: HostRuntime) -> Result<(), Fail> {
    let words = "assign --period 30 --horizon 60 --plain";
    assert!(rt; gives(&rt, words, two_links(rt.alloc())?, CountGate::new())?);
    Ok(())
}

#[test]
fn two_iterations_give_two_receipts(rt: HostRuntime) -> Result<(), Fail> {
    let words = "assign --period 1 --horizon 60 --iterations 2";
    let receipt = CountGate {
        closes: 2,
        units: 420,
        passes: 4,
        vehicles: 4,
    };
    let desk = desk_of(rt.alloc(), NODES, A_WAY_ROUND, FOUR_VEHICLES)?;
    assert!(rt; gives(&rt, words, desk, receipt)?);
    Ok(())
}

// The status of a run that takes no workers; there is none of another. Its handle has no `Wait`, so
// this wouldn't compile if such a run could wait.
fn status_alone<R: AllocGlobal + Threads + Sync>(
    rt: &R,
    words: &Words,
    desk: &mut MemDesk,
) -> Option<Status> {
    let Ok(settings) = settings(rt.alloc(), words) else {
        return None;
    };
    if takes_workers(&settings) {
        return None;
    }
    Some(run_without_workers(rt, &settings, desk))
}

#[test]
fn the_plain_loader_waits_for_nobody(rt: HostRuntime) -> Result<(), Fail> {
    let plain = words_in(rt.alloc(), "assign --period 30 --horizon 60 --plain")?;
    let mut desk = two_links(rt.alloc())?;
    assert!(rt; status_alone(&rt, &plain, &mut desk) == Some(Status::Done));
    assert!(rt; has_taken_all(&desk));
    let by_workers = words_in(rt.alloc(), ASSIGN)?;
    assert!(rt; status_alone(&rt, &by_workers, &mut desk).is_none());
    Ok(())
}

// How often a worker looks whether the other has been at a unit.
const TURNS: u32 = 10_000_000;

// A gate that holds each of workers 0 and 1 at its first unit until the other has been at a unit,
// and keeps whether one of them waited in vain.
#[derive(Drop)]
struct TwoHold {
    been: [AtomicBool; 2],
    in_vain: AtomicBool,
}

impl Gate for TwoHold {
    ghost use Rattle.std.specs.Prelude.{None};

    ghost closes = { λ _. None };

    ghost last = { λ _. None };

    fn at(&self, worker: u32, _unit: u64) {
        match worker {
            0 => self.hold(&self.been[0], &self.been[1]),
            1 => self.hold(&self.been[1], &self.been[0]),
            _ => {}
        }
    }

    fn closed(&mut self, _receipt: Receipt) {}
}

impl TwoHold {
    // Holds a worker at its first unit.
    fn hold(&self, own: &AtomicBool, other: &AtomicBool) {
        if own.swap(true, Ordering::SeqCst) {
            return;
        }
        for _ in 0..TURNS {
            if other.load(Ordering::SeqCst) {
                return;
            }
            hint::spin_loop();
        }
        self.in_vain.store(true, Ordering::SeqCst);
    }
}

#[test]
fn two_hold_units(rt: HostRuntime) -> Result<(), Fail> {
    let words = words_in(rt.alloc(), "assign --period 30 --horizon 60 --workers 2")?;
    let mut gate = TwoHold {
        been: [AtomicBool::new(false), AtomicBool::new(false)],
        in_vain: AtomicBool::new(false),
    };
    let mut desk = two_links(rt.alloc())?;
    assert!(rt; status_of(&rt, &words, &mut desk, &mut gate) == Status::Done);
    assert!(rt; !gate.in_vain.load(Ordering::SeqCst));
    assert!(rt; gate.been[0].load(Ordering::SeqCst) && gate.been[1].load(Ordering::SeqCst));
    Ok(())
}
