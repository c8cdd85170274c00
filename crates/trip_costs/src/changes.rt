// Who takes a new walk after an iteration.
ghost use Rattle.std.specs.Prelude.{◌≡◌};
ghost use Rattle.trip_costs.specs.Changes.{changes_after};

/// The prime by which numbers of vehicles and iterations are mixed.
pub const PRIME: u64 = 2_147_483_647;

/// How many a vehicle's number counts for in the mixed number.
pub const PER_VEHICLE: u64 = 48_271;

/// How many an iteration's number counts for in it.
pub const PER_ITERATION: u64 = 1_000_003;

/// Whether a vehicle takes its chosen walk by costs of trips after iteration k.
pub fn changes_after(vehicle: u32, k: u32) -> bool
    ensures { result ≡ changes_after vehicle k }
{
    let mixed = (PER_VEHICLE * u64::from(vehicle) + PER_ITERATION * u64::from(k) + 1) % PRIME;
    mixed * mixed % PRIME % (u64::from(k) + 1) == 0
}
