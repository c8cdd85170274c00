// The two forms of a table of what is left.
ghost use Rattle.std.specs.Prelude.{◌≡◌, ◌+◌, ◌*◌, ◌^◌, ◌<◌, ◌≤◌, length, All};

use crate::filling::one::One;

/// Some zones side by side: a row of labels, with a slot for each zone, of each state for the
/// horizon and later, then one for each step before the row of the next.
#[derive(Drop)]
pub(crate) struct SlotTable<S> {
    pub(crate) states: usize,
    pub(crate) horizon: u32,
    pub(crate) labels: Vec<S>,
    ghost size: { (horizon + 1) * states ≤ length labels.items },
    ghost fits: { (horizon + 1) * states < 2 ^ 63 },
}

/// A zone after another in 64 bits: for each a table of its own.
#[derive(Drop)]
pub(crate) struct WideTable {
    pub(crate) states: usize,
    pub(crate) zones: Vec<SlotTable<One>>,
    ghost same: { All (λ zone. zone.states ≡ states) zones.items },
}
