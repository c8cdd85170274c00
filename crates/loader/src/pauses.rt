// How a worker waits for the others.
ghost use Rattle.std.specs.Duration.{as_nanos};
ghost use Rattle.std.specs.Prelude.{◌≡◌, ◌*◌, ◌≤◌};

use std::sync::Wait;
use std::thread::Parker;
use std::time::Duration;
use std::{hint, thread};

// How many pauses a worker spins, each a little longer than the one before.
const SPINS: u32 = 64;

// How many more it takes by letting other threads go first. After them it sleeps.
const YIELDS: u32 = 100;

// The microseconds of its first sleep, by which each further one is longer.
const FIRST_SLEEP: u32 = 50;

/// The pauses of a worker between two looks at what the others have done: it spins, then lets
/// other threads go first, then sleeps. So one that waits for a moment loses no time, and one that
/// waits for long leaves the processors to others.
#[derive(Clone, Copy, Debug)]
pub struct Pauses {
    taken: u32,
    longest: u32,
}

impl Pauses {
    /// No pause so far, and none longer than so many microseconds.
    pub fn up_to(longest: u32) -> Self {
        Pauses { taken: 0, longest }
    }

    /// Takes the next pause.
    pub fn take<R: Wait>(&mut self, rt: &R) {
        let taken = self.taken;
        self.taken = taken.saturating_add(1);
        if taken < SPINS {
            for _ in 0..taken {
                hint::spin_loop();
            }
        } else if taken < SPINS + YIELDS {
            thread::yield_now();
        } else {
            sleep(rt, self.next_sleep(taken - (SPINS + YIELDS)));
        }
    }

    // The microseconds of the sleep that comes after so many sleeps.
    fn next_sleep(&self, slept: u32) -> u32
        ensures { result ≤ self.now.longest }
    {
        let wanted = slept.saturating_add(1).saturating_mul(FIRST_SLEEP);
        wanted.min(self.longest)
    }
}

// So many microseconds, as the system counts time.
fn span_of(microseconds: u32) -> Duration
    ensures { as_nanos result ≡ microseconds * 1_000 }
{
    Duration::from_micros(u64::from(microseconds))
}

/// Sleeps for so many microseconds, or about as many.
pub fn sleep<R: Wait>(rt: &R, microseconds: u32) {
    Parker::new().park_timeout(rt, span_of(microseconds));
}
