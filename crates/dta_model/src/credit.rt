// What credits are counted in.

/// A rate in millionths of a vehicle per hour, times seconds, is in parts of a vehicle. So many of
/// them make one.
pub const PARTS_OF_A_VEHICLE: u64 = 3_600_000_000;
