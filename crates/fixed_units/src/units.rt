// The units of a run.
use crate::measure::{LengthUnit, SpeedUnit};

/// The units of a run: the step in seconds (1 to 60), the vehicles on a kilometre of a lane in a
/// jam (1 to 1000), and the units of length and speed in the link table.
#[derive(Clone, Copy, Debug, PartialEq, Eq)]
pub struct Units {
    pub delta: u32,
    pub jam: u32,
    pub length: LengthUnit,
    pub speed: SpeedUnit,
}
