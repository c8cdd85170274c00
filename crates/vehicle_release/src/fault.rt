// Why a demand table gives no trips.
ghost use Rattle.std.specs.Prelude.{◌≡◌};
ghost use Rattle.vehicle_release.specs.declared.fault.ReleaseFault.TheVariants as fault;

use std::alloc::{AllocError, AllocFailed};

/// Why a demand table gives no trips.
#[derive(Clone, Copy, Debug, PartialEq, Eq)]
pub enum ReleaseFault {
    /// There are more vehicles than there may be: the line of the first row with which there are,
    /// and how many there are up to and with that row.
    TooMany { line: u64, total: u64 },
    /// Memory is wanting.
    Memory,
}

impl From<AllocError> for ReleaseFault {
    ghost from_gives = { λ _ e. e ≡ fault.Memory };

    fn from(_error: AllocError) -> ReleaseFault {
        ReleaseFault::Memory
    }
}
