// A line of riders.
ghost use Rattle.dta_model.specs.Riders.{moved};
ghost use Rattle.link_queues.specs.Lines.{due};
ghost use Rattle.std.specs.Prelude.{◌≡◌, ◌+◌, ◌-◌, ◌<◌, ◌≤◌, ◌++◌, ◌∷◌, ◌↔◌, [], length, drop};
ghost use Rattle.std.specs.Prelude.{slice_get, option_copied, IfErr, IfSome, IsNone, IsSomeAnd};
ghost use Rattle.std.specs.Prelude.{OnErr, OnOk, None};

use crate::rider::Rider;
use std::alloc::{AllocError, Global};
use std::collections::LinkedList;
use std::marker::Model;

/// The most riders of a line.
pub const MOST_RIDERS: u32 = 4_294_967_295;

/// Riders in order.
#[derive(Drop)]
pub struct Line {
    riders: LinkedList<Rider>,
}

impl Model for Line {
    ghost use Rattle.dta_model.specs.Riders.{RiderState};
    ghost use Rattle.link_queues.specs.declared.line.TheConstants.{MOST_RIDERS};
    ghost use Rattle.std.specs.Prelude.{List, length, ◌≤◌};

    ghost Value = { List RiderState };

    ghost view = { λ l. l.riders };

    ghost invariant = { λ l. length l.riders ≤ MOST_RIDERS };
}

/// No memory for one more rider, who is given back.
#[derive(Drop)]
pub struct PushRefused {
    /// The rider who was to be put last.
    pub rider: Rider,
}

impl From<PushRefused> for AllocError {
    fn from(_: PushRefused) -> Self {
        AllocError
    }
}

impl Line {
    /// A line without riders. It takes no memory.
    pub fn new(alloc: Global) -> Self
        ensures { result ≡ [] }
    {
        Line {
            riders: LinkedList::new(alloc),
        }
    }

    /// Puts a rider last. For want of memory the rider is given back, and the line is as before.
    pub fn push(&mut self, rider: Rider) -> Result<(), PushRefused>
        requires { length self.old < MOST_RIDERS }
        ensures last { OnOk result (self.new ≡ self.old ++ rider ∷ []) }
        ensures back { IfErr result (λ refused. refused.rider ≡ rider) }
        ensures same { OnErr result (self.new ≡ self.old) }
    {
        match self.riders.push_back(rider) {
            Ok(()) => Ok(()),
            Err(refused) => Err(PushRefused {
                rider: refused.value,
            }),
        }
    }

    /// The first rider, lent, and `None` exactly where there is none.
    pub fn front(&self) -> Option<&Rider>
        ensures first { option_copied result ≡ slice_get self.now 0 }
        ensures none { IsNone result ↔ (self.now ≡ []) }
    {
        self.riders.front()
    }

    /// Takes out the first rider. `None` comes exactly where there is none.
    pub fn pop(&mut self) -> Option<Rider>
        ensures first { result ≡ slice_get self.old 0 }
        ensures rest { self.new ≡ drop 1 self.old }
        ensures none { IsNone result ↔ (self.old ≡ []) }
    {
        self.riders.pop_front()
    }

    /// Moves the first rider to the end of the other line, and notes the step: as that of the next
    /// entry, or of the arrival where all links of the route are entered.
    pub fn move_front_to(&mut self, other: &mut Line, step: u32)
        requires fits { length other.old < MOST_RIDERS }
        requires under_way { IsSomeAnd (slice_get self.old 0) (λ rider. rider.arrival ≡ None) }
        ensures rest { self.new ≡ drop 1 self.old }
        ensures moved { IfSome (slice_get self.old 0)
            (λ rider. other.new ≡ other.old ++ moved rider step ∷ []) }
    {
        if let Some(rider) = self.riders.front_mut() {
            rider.note(step);
        }
        self.shift_front_to(other);
    }

    /// Moves the first rider to the end of the other line, and notes nothing.
    pub fn shift_front_to(&mut self, other: &mut Line)
        requires fits { length other.old < MOST_RIDERS }
        requires some { 0 < length self.old }
        ensures rest { self.new ≡ drop 1 self.old }
        ensures shifted { IfSome (slice_get self.old 0)
            (λ rider. other.new ≡ other.old ++ rider ∷ []) }
    {
        match self.riders.split_off(1) {
            Ok(mut rest) => {
                std::mem::swap(&mut self.riders, &mut rest);
                match other.riders.append(&mut rest) {
                    Ok(()) => {}
                    Err(_) => unreachable!(),
                }
            }
            Err(_) => unreachable!(),
        }
    }

    /// All riders, in their order. The line is left empty.
    pub fn take_all(&mut self) -> Line
        ensures all { result ≡ self.old }
        ensures emptied { self.new ≡ [] }
    {
        match self.riders.split_off(0) {
            Ok(riders) => Line { riders },
            Err(_) => unreachable!(),
        }
    }

    /// Puts the other line's riders last, in their order. The other line is left empty.
    pub fn append(&mut self, other: &mut Line)
        requires { length self.old + length other.old ≤ MOST_RIDERS }
        ensures joined { self.new ≡ self.old ++ other.old }
        ensures emptied { other.new ≡ [] }
    {
        match self.riders.append(&mut other.riders) {
            Ok(()) => {}
            Err(_) => unreachable!(),
        }
    }

    /// How many riders there are.
    pub fn len(&self) -> u32
        ensures { result ≡ length self.now }
    {
        self.riders.len() as u32
    }

    /// How many riders have a departure below `steps`. It walks along the whole line, so a caller
    /// who asks in every step has to count in another way.
    pub fn due(&self, steps: u32) -> u32
        ensures { result ≡ due steps self.now }
    {
        self.riders
            .iter()
            .filter(|rider| rider.departure() < steps)
            .count() as u32
    }

    /// How many riders more there is room for, where `storage` riders fill the line.
    pub fn room(&self, storage: u32) -> u32
        requires { length self.now ≤ storage }
        ensures { result ≡ storage - length self.now }
    {
        storage - self.len()
    }
}
