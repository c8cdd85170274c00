// Labels of eight zones side by side in 16 bits.
ghost use Rattle.std.specs.Prelude.{◌≡◌, ℕ, ◌≤◌, length, slice_index};

use crate::filling::no_walk::SHORT_FAR;
use crate::filling::slots::Slots;
use std::simd::prelude::*;

/// The labels of eight zones from one state at one step.
#[derive(Clone, Copy, Drop)]
pub(crate) struct Eight {
    labels: u16x8,
    ghost many: { length labels ≡ 8 },
    ghost low: { (j : ℕ) → slice_index labels j ≤ 32768 },
}

impl Slots for Eight {
    ghost use Rattle.std.proofs.Common.{lit≤};
    ghost use Rattle.labels.specs.Filling.SlotForms.{eight_slot};

    const SLOTS: usize = 8;

    ghost SLOTS = { 8 };

    const FAR: u64 = SHORT_FAR;

    ghost FAR = { 32768 };

    ghost slot = { eight_slot };

    fn no_walk() -> Self {
        Eight {
            labels: u16x8::splat(SHORT_FAR as u16),
        }
    }

    fn or_after(self, left: Self, time: u64) -> Self {
        let later = left.labels.strict_add(u16x8::splat(time as u16));
        Eight {
            labels: self.labels.simd_min(later),
        }
    }

    fn with(self, place: usize, label: u64) -> Self {
        let mut labels = self.labels.to_array();
        labels[place] = label as u16;
        Eight {
            labels: u16x8::from_array(labels),
        }
    }

    fn label(self, place: usize) -> u64 {
        self.labels[place] as u64
    }

    ghost low = { λ x j. x.low j };

    ghost near = { lit≤ tt };
}
