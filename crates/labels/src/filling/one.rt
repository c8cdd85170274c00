// The label of one zone in 64 bits.
ghost use Rattle.std.specs.Prelude.{◌≤◌};

use crate::filling::no_walk::FAR;
use crate::filling::slots::Slots;

/// The label of one zone from one state at one step.
#[derive(Clone, Copy, Drop)]
pub(crate) struct One {
    label: u64,
    ghost low: { label ≤ 4611686018427387904 },
}

impl Slots for One {
    ghost use Rattle.std.proofs.Common.{lit≤};
    ghost use Rattle.labels.specs.Filling.SlotForms.{one_slot};

    const SLOTS: usize = 1;

    ghost SLOTS = { 1 };

    const FAR: u64 = FAR;

    ghost FAR = { 4611686018427387904 };

    ghost slot = { one_slot };

    fn no_walk() -> Self {
        One { label: FAR }
    }

    fn or_after(self, left: Self, time: u64) -> Self {
        One {
            label: self.label.min(left.label + time),
        }
    }

    fn with(self, place: usize, label: u64) -> Self {
        let _alone = place;
        One { label }
    }

    fn label(self, place: usize) -> u64 {
        let _alone = place;
        self.label
    }

    ghost low = { λ x j. x.low };

    ghost near = { lit≤ tt };
}
