// What a link's length, speed, lanes and capacity give it.
ghost use Rattle.std.specs.Prelude.{◌≡◌, ◌≤◌, IfOk};
ghost use Rattle.fixed_units.specs.Units.{free_steps_of, storage_of, link_rate_of, wave_steps_of};

use crate::measure::{Length, Speed};
use crate::quantity::MOST_THOUSANDTHS;

/// The longest step, in seconds.
pub const MOST_STEP: u32 = 60;

/// The most free-flow steps of a link.
pub const MOST_FREE_STEPS: u32 = 10_000;

/// The most vehicles that a link stores.
pub const MOST_STORAGE: u32 = 4_000_000;

/// The most lanes of a link, in thousandths.
pub const MOST_LANES: u32 = 100_000;

/// The greatest jam density, in vehicles per kilometre and lane.
pub const MOST_JAM: u32 = 1000;

/// The highest rate of a link or a turn, in millionths of a vehicle per hour.
pub const MOST_RATE: u64 = 100_000_000_000_000_000;

/// A link that takes more than `MOST_FREE_STEPS` at its free speed.
#[derive(Clone, Copy, Debug, PartialEq, Eq)]
pub struct TooSlow {
    /// The steps that it takes.
    pub steps: u128,
}

/// The steps of `delta` seconds that a link takes at its free speed, rounded up.
pub fn ff_steps(length: Length, speed: Speed, delta: u32) -> Result<u32, TooSlow>
    requires moves { 1 ≤ speed.micrometres_per_hour }
    requires step { 1 ≤ delta }
    requires short { delta ≤ MOST_STEP }
    ensures value { result ≡ free_steps_of length speed delta }
    ensures least { IfOk result (λ steps. 1 ≤ steps) }
    ensures most { IfOk result (λ steps. steps ≤ MOST_FREE_STEPS) }
{
    let per_step = u128::from(speed.micrometres_per_hour) * u128::from(delta);
    let steps = (3600 * u128::from(length.micrometres))
        .div_ceil(per_step)
        .max(1);
    if steps > u128::from(MOST_FREE_STEPS) {
        Err(TooSlow { steps })
    } else {
        Ok(steps as u32)
    }
}

/// The vehicles that a link stores at a jam density, at least one. Lanes are in thousandths.
pub fn storage(length: Length, lanes: u32, jam: u32) -> u32
    requires lanes { lanes ≤ MOST_LANES }
    requires sparse { 1 ≤ jam }
    requires dense { jam ≤ MOST_JAM }
    ensures value { result ≡ storage_of length lanes jam }
    ensures least { 1 ≤ result }
    ensures most { result ≤ MOST_STORAGE }
{
    let vehicles = u128::from(length.micrometres) * u128::from(lanes) * u128::from(jam)
        / 1_000_000_000_000;
    vehicles.max(1).min(u128::from(MOST_STORAGE)) as u32
}

/// The rate at which vehicles may enter and leave a link, in millionths of a vehicle per hour.
/// The capacity is per lane, and both are in thousandths.
pub fn link_rate(capacity: u64, lanes: u32) -> u64
    requires capacity { capacity ≤ MOST_THOUSANDTHS }
    requires lanes { lanes ≤ MOST_LANES }
    ensures value { result ≡ link_rate_of capacity lanes }
    ensures most { result ≤ MOST_RATE }
{
    capacity * u64::from(lanes)
}

/// The steps of `delta` seconds that a backward wave of so many kilometres per hour takes over a
/// link, rounded up: at least one, and not more than the horizon has.
pub fn wave_steps(length: Length, wave: u32, delta: u32, horizon: u32) -> u32
    requires moves { 1 ≤ wave }
    requires step { 1 ≤ delta }
    requires horizon { 1 ≤ horizon }
    ensures value { result ≡ wave_steps_of length wave delta horizon }
    ensures least { 1 ≤ result }
    ensures most { result ≤ horizon }
{
    let advance = u128::from(wave) * 1_000_000_000 * u128::from(delta);
    let steps = (3600 * u128::from(length.micrometres)).div_ceil(advance);
    steps.min(u128::from(horizon)).max(1) as u32
}
