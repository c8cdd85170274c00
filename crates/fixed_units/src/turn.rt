// What a turn's penalty and capacity give it.
ghost use Rattle.std.specs.Prelude.{◌≡◌, ◌≤◌};
ghost use Rattle.fixed_units.specs.declared.link.TheConstants.{MOST_RATE};
ghost use Rattle.fixed_units.specs.Units.{penalty_steps_of, turn_rate_of};

use crate::link::MOST_STEP;
use crate::quantity::MOST_THOUSANDTHS;

/// The greatest penalty, in thousandths of a second: ten hours.
pub const MOST_PENALTY: u64 = 36_000_000;

/// The most steps of a penalty, those of ten hours in steps of a second.
pub const MOST_PENALTY_STEPS: u32 = 36_000;

/// The steps of `delta` seconds that a penalty takes, rounded up.
pub fn penalty_steps(thousandths: u64, delta: u32) -> u32
    requires bounded { thousandths ≤ MOST_PENALTY }
    requires step { 1 ≤ delta }
    requires short { delta ≤ MOST_STEP }
    ensures value { result ≡ penalty_steps_of thousandths delta }
    ensures most { result ≤ MOST_PENALTY_STEPS }
{
    thousandths.div_ceil(1000 * u64::from(delta)) as u32
}

/// The rate at which vehicles may take a turn, in millionths of a vehicle per hour. The capacity
/// is in thousandths.
pub fn turn_rate(capacity: u64) -> u64
    requires { capacity ≤ MOST_THOUSANDTHS }
    ensures value { result ≡ turn_rate_of capacity }
    ensures most { result ≤ MOST_RATE }
{
    capacity * 1000
}
