// Zones by numbers, and the number that stands for none.
ghost use Rattle.std.specs.Prelude.{◌≡◌, MatchOption, ℕ, Option};
ghost use Rattle.net_core.specs.Network.{as_zone};
ghost use Rattle.labels.specs.States.Onwards.{zone_or_none};

use net_core::ZoneNo;

/// Stands for no zone.
pub const NO_ZONE: u32 = 4_294_967_295;

// The number of a zone, or the one that stands for none.
pub fn or_none(zone: Option<ZoneNo>) -> u32
    ensures told { MatchOption zone (result ≡ NO_ZONE) (λ z. result ≡ z.0) }
    ensures is { (number : Option ℕ) → zone ≡ as_zone number → result ≡ zone_or_none number }
{
    match zone {
        Some(zone) => zone.0,
        None => NO_ZONE,
    }
}
