// Demand, and the trips that it makes.

/// The most trips.
pub const MOST_TRIPS: usize = 2_000_000;

/// The volume of one vehicle, in thousandths.
pub const VOLUME_OF_A_VEHICLE: u64 = 1000;

/// What a row of a demand table asks for: its line in the table, its zones by their identifiers,
/// its volume in thousandths of a vehicle, and its window: the steps in which its vehicles depart,
/// the first one and the one after the last.
#[derive(Clone, Copy, Debug, PartialEq, Eq, Drop)]
pub struct DemandCell {
    pub line: u64,
    pub origin: u64,
    pub destination: u64,
    pub volume: u64,
    pub from: u32,
    pub to: u32,
}

/// The trip of a vehicle: its number, its zones by their identifiers, and the step of its
/// departure.
#[derive(Clone, Copy, Debug, PartialEq, Eq, Drop)]
pub struct Trip {
    pub number: u32,
    pub origin: u64,
    pub destination: u64,
    pub departure: u32,
}
