// Lengths and speeds, and the units that tables give them in.

/// The unit of a table's lengths.
#[derive(Clone, Copy, Debug, PartialEq, Eq)]
pub enum LengthUnit {
    Metre,
    Kilometre,
    /// The international mile, 1,609.344 metres.
    Mile,
}

/// The unit of a table's speeds.
#[derive(Clone, Copy, Debug, PartialEq, Eq)]
pub enum SpeedUnit {
    /// Kilometres per hour.
    Kmh,
    /// Miles per hour.
    Mph,
}

/// A length in micrometres, exact in each unit.
#[derive(Clone, Copy, Debug, PartialEq, Eq)]
pub struct Length {
    pub micrometres: u64,
}

/// A speed in micrometres per hour, exact in each unit.
#[derive(Clone, Copy, Debug, PartialEq, Eq)]
pub struct Speed {
    pub micrometres_per_hour: u64,
}
