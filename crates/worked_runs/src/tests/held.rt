// A worker that is held while another one goes on.
use crate::tests::{has_taken_all, status_of, two_links, words_in};
use desk_io::Output;
use dta_run::{Gate, Status};
use phase_claims::Receipt;
use std::hint;
use std::sync::atomic::{AtomicBool, Ordering};
use std::test::Fail;

// How often a held worker looks whether it may go on.
const TURNS: u32 = 10_000_000;

// A gate that holds worker 1 at its first unit until worker 0 has been at its second one, or until
// the turns ran out. It keeps at which units the workers have been.
#[derive(Drop)]
struct HoldsOne {
    first: AtomicBool,
    second: AtomicBool,
    held: AtomicBool,
}

impl Gate for HoldsOne {
    ghost use Rattle.std.specs.Prelude.{None};

    ghost closes = { λ _. None };

    ghost last = { λ _. None };

    fn at(&self, worker: u32, _unit: u64) {
        match worker {
            0 => self.pass(),
            1 => self.hold(),
            _ => {}
        }
    }

    fn closed(&mut self, _receipt: Receipt) {}
}

impl HoldsOne {
    // Notes a unit of worker 0.
    fn pass(&self) {
        if self.first.swap(true, Ordering::SeqCst) {
            self.second.store(true, Ordering::SeqCst);
        }
    }

    // Holds worker 1 at its first unit.
    fn hold(&self) {
        if self.held.swap(true, Ordering::SeqCst) {
            return;
        }
        for _ in 0..TURNS {
            if self.second.load(Ordering::SeqCst) {
                return;
            }
            hint::spin_loop();
        }
    }
}

#[test]
fn a_held_worker(rt: HostRuntime) -> Result<(), Fail> {
    let words = words_in(rt.alloc(), "assign --period 30 --horizon 60 --workers 2")?;
    let mut gate = HoldsOne {
        first: AtomicBool::new(false),
        second: AtomicBool::new(false),
        held: AtomicBool::new(false),
    };
    let mut desk = two_links(rt.alloc())?;
    assert!(rt; status_of(&rt, &words, &mut desk, &mut gate) == Status::Done);
    assert!(rt; has_taken_all(&desk));
    Ok(())
}

// The first unit of step 30 of a loading of three nodes.
const HALF: u64 = 210;

// A gate that holds the other workers at each unit from step 30 on, until worker 0 has been at two
// of these or the turns ran out: then worker 0 has looked once at what was posted before.
#[derive(Drop)]
struct HoldsOthers {
    first: AtomicBool,
    second: AtomicBool,
}

impl Gate for HoldsOthers {
    ghost use Rattle.std.specs.Prelude.{None};

    ghost closes = { λ _. None };

    ghost last = { λ _. None };

    fn at(&self, worker: u32, unit: u64) {
        if unit < HALF {
            return;
        }
        match worker {
            0 => self.pass(),
            _ => self.hold(),
        }
    }

    fn closed(&mut self, _receipt: Receipt) {}
}

impl HoldsOthers {
    // Notes a unit of worker 0.
    fn pass(&self) {
        if self.first.swap(true, Ordering::SeqCst) {
            self.second.store(true, Ordering::SeqCst);
        }
    }

    // Holds another worker at a unit.
    fn hold(&self) {
        for _ in 0..TURNS {
            if self.second.load(Ordering::SeqCst) {
                return;
            }
            hint::spin_loop();
        }
    }
}

// How many lines a text has.
fn count_lines(text: &[u8]) -> usize {
    text.iter().filter(|byte| **byte == b'\n').count()
}

#[test]
fn a_line_comes_before_the_last(rt: HostRuntime) -> Result<(), Fail> {
    let line = "assign --period 30 --horizon 60 --workers 2 --watch 10";
    let words = words_in(rt.alloc(), line)?;
    let mut gate = HoldsOthers {
        first: AtomicBool::new(false),
        second: AtomicBool::new(false),
    };
    let mut desk = two_links(rt.alloc())?;
    assert!(rt; status_of(&rt, &words, &mut desk, &mut gate) == Status::Done);
    assert!(rt; count_lines(desk.taken(Output::Watch)) > 1);
    Ok(())
}
