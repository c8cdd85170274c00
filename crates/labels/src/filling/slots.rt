// Numbers of a few zones side by side.
ghost use Rattle.std.specs.Prelude.{◌≡◌, ℕ, ◌+◌, ◌<◌, ◌≤◌, min, cond, nat_eq};

/// The labels of a few zones from one state at one step, a slot for each zone.
pub(crate) trait Slots: Copy {
    /// How many slots there are.
    const SLOTS: usize;

    ghost SLOTS: { ℕ };

    /// What stands for no walk.
    const FAR: u64;

    ghost FAR: { ℕ };

    /// The label of a slot.
    ghost slot: { Self → ℕ → ℕ };

    /// No walk in any slot.
    fn no_walk() -> Self
        ensures { (j : ℕ) → j < SLOTS → slot result j ≡ FAR };

    /// In each slot the lesser of two labels, where a time is added to the second.
    fn or_after(self, left: Self, time: u64) -> Self
        requires { time < FAR }
        ensures { (j : ℕ) → j < SLOTS → slot result j ≡ min (slot self j) (slot left j + time) };

    /// The same labels but for that of one slot.
    fn with(self, place: usize, label: u64) -> Self
        requires place { place < SLOTS }
        requires label { label ≤ FAR }
        ensures { (j : ℕ) → j < SLOTS → slot result j ≡ cond (nat_eq j place) label (slot self j) };

    /// The label of a slot.
    fn label(self, place: usize) -> u64
        requires { place < SLOTS }
        ensures { result ≡ slot self place };

    ghost low: { (x : Self) (j : ℕ) → slot x j ≤ FAR };

    ghost near: { FAR ≤ 4611686018427387904 };
}
