// The bounds of options, and what stands where one isn't given.

use dta_model::{MOST_HORIZON, MOST_WAVE};
use fixed_units::{MOST_JAM, MOST_STEP};

/// A whole number that an option takes: its least and its most, and what stands where the option
/// isn't given.
#[derive(Clone, Copy, Debug, PartialEq, Eq)]
pub(crate) struct Bounds {
    pub(crate) least: u32,
    pub(crate) most: u32,
    pub(crate) default: u32,
}

/// Which flags are given.
#[derive(Clone, Copy, Debug, PartialEq, Eq)]
pub(crate) struct Flags {
    pub(crate) plain: bool,
    pub(crate) start: bool,
}

/// The seconds of a step.
pub(crate) const STEP: Bounds = Bounds {
    least: 1,
    most: MOST_STEP,
    default: 6,
};

/// The vehicles on a kilometre of a lane in a jam.
pub(crate) const JAM: Bounds = Bounds {
    least: 1,
    most: MOST_JAM,
    default: 125,
};

/// The steps of a loading.
pub(crate) const HORIZON: Bounds = Bounds {
    least: 1,
    most: MOST_HORIZON,
    default: 1200,
};

/// The steps in which vehicles are released, where the horizon is longer and no option says it.
pub(crate) const DEFAULT_PERIOD: u32 = 600;

/// The iterations of a run.
pub(crate) const ITERATIONS: Bounds = Bounds {
    least: 1,
    most: 1000,
    default: 1,
};

/// The workers that load.
pub(crate) const WORKERS: Bounds = Bounds {
    least: 1,
    most: 16,
    default: 4,
};

/// The steps of a bucket of link times.
pub(crate) const BUCKET: Bounds = Bounds {
    least: 1,
    most: MOST_HORIZON,
    default: 50,
};

/// The speed of a backward wave in kilometres an hour.
pub(crate) const WAVE: Bounds = Bounds {
    least: 1,
    most: MOST_WAVE,
    default: 20,
};

/// The steps between two watch lines, 0 for none.
pub(crate) const WATCH: Bounds = Bounds {
    least: 0,
    most: MOST_HORIZON,
    default: 0,
};

/// A list of steps has at most as many.
pub(crate) const MOST_STARTS: usize = 64;

/// A sweep has at most as many multiples of the demand.
pub(crate) const MOST_SCALES: usize = 16;

/// A multiple of the demand in thousandths, at least.
pub(crate) const LEAST_SCALE: u64 = 1;

/// A multiple of the demand in thousandths, at most.
pub const GREATEST_SCALE: u64 = 10_000;

/// The nodes on a side of the grid of `demo`, at least.
pub(crate) const LEAST_SIDE: u32 = 2;

/// The nodes on a side of the grid of `demo`, at most.
pub(crate) const MOST_SIDE: u32 = 60;
