// From quantities to lengths and speeds.
ghost use Rattle.std.specs.Prelude.{◌≡◌, ◌≤◌};
ghost use Rattle.fixed_units.specs.Units.{length_of, speed_of};

use crate::measure::{Length, LengthUnit, Speed, SpeedUnit};
use crate::quantity::MOST_THOUSANDTHS;

/// The length of so many thousandths of a unit.
pub fn length(thousandths: u64, unit: LengthUnit) -> Length
    requires { thousandths ≤ MOST_THOUSANDTHS }
    ensures { result ≡ length_of thousandths unit }
{
    let micrometres_in_thousandth = match unit {
        LengthUnit::Metre => 1000,
        LengthUnit::Kilometre => 1_000_000,
        LengthUnit::Mile => 1_609_344,
    };
    Length {
        micrometres: thousandths * micrometres_in_thousandth,
    }
}

/// The speed of so many thousandths of a unit.
pub fn speed(thousandths: u64, unit: SpeedUnit) -> Speed
    requires { thousandths ≤ MOST_THOUSANDTHS }
    ensures { result ≡ speed_of thousandths unit }
{
    let micrometres_in_thousandth = match unit {
        SpeedUnit::Kmh => 1_000_000,
        SpeedUnit::Mph => 1_609_344,
    };
    Speed {
        micrometres_per_hour: thousandths * micrometres_in_thousandth,
    }
}
