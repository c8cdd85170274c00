// Rates that change with the steps.
ghost use Rattle.std.specs.Prelude.{◌≡◌, IfOk};
ghost use Rattle.net_core.specs.Rates.{rate_in};

use item_list::List;
use std::alloc::{AllocError, Global};

/// The most windows of a link or a turn.
pub const MOST_WINDOWS: usize = 64;

/// The last step at which a window may begin.
pub const MOST_WINDOW_STEP: u32 = 86_400;

/// A rate in millionths of a vehicle per hour, which holds from a step on until the next window
/// begins. None is no limit.
#[derive(Clone, Copy, Debug, PartialEq, Eq, Drop)]
pub struct Window {
    pub from: u32,
    pub rate: Option<u64>,
}

/// The windows of a link or a turn, in the order of their steps.
pub type Windows = List<Window>;

/// A copy of windows.
pub fn copy_of(alloc: Global, windows: &[Window]) -> Result<Windows, AllocError>
    ensures { IfOk result (λ copy. copy ≡ windows.now) }
{
    Ok(Windows::of(Vec::from_slice(alloc, windows)?))
}

/// What a link or a turn lets through in each step, in millionths of a vehicle per hour: the usual
/// rate, and the windows that hold in its place from their steps on. No rate is no limit.
#[derive(Drop)]
pub struct Rates {
    pub usual: Option<u64>,
    pub windows: Windows,
}

/// The rate in a step: that of the last window that has begun, and the usual one before the first.
pub fn rate_at(usual: Option<u64>, windows: &[Window], step: u32) -> Option<u64>
    ensures { result ≡ rate_in (record { usual = usual; windows = windows.now }) step }
{
    let mut rate = usual;
    for window in windows {
        if window.from > step {
            return rate;
        }
        rate = window.rate;
    }
    rate
}
