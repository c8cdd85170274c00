// Labels of four zones side by side in 32 bits.
ghost use Rattle.std.specs.Prelude.{◌≡◌, ℕ, ◌≤◌, length, slice_index};

use crate::filling::no_walk::NARROW_FAR;
use crate::filling::slots::Slots;
use std::simd::prelude::*;

/// The labels of four zones from one state at one step.
#[derive(Clone, Copy, Drop)]
pub(crate) struct Four {
    labels: u32x4,
    ghost many: { length labels ≡ 4 },
    ghost low: { (j : ℕ) → slice_index labels j ≤ 2147483648 },
}

impl Slots for Four {
    ghost use Rattle.std.proofs.Common.{lit≤};
    ghost use Rattle.labels.specs.Filling.SlotForms.{four_slot};

    const SLOTS: usize = 4;

    ghost SLOTS = { 4 };

    const FAR: u64 = NARROW_FAR as u64;

    ghost FAR = { 2147483648 };

    ghost slot = { four_slot };

    fn no_walk() -> Self {
        Four {
            labels: u32x4::splat(NARROW_FAR),
        }
    }

    fn or_after(self, left: Self, time: u64) -> Self {
        let later = left.labels.strict_add(u32x4::splat(time as u32));
        Four {
            labels: self.labels.simd_min(later),
        }
    }

    fn with(self, place: usize, label: u64) -> Self {
        let mut labels = self.labels.to_array();
        labels[place] = label as u32;
        Four {
            labels: u32x4::from_array(labels),
        }
    }

    fn label(self, place: usize) -> u64 {
        self.labels[place] as u64
    }

    ghost low = { λ x j. x.low j };

    ghost near = { lit≤ tt };
}
