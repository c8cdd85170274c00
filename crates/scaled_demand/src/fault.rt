// Why a sweep gives no scenarios.
ghost use Rattle.std.specs.Prelude.{◌≡◌};
ghost use Rattle.scaled_demand.specs.declared.fault.SweepFault.TheVariants as fault;

use std::alloc::AllocError;

/// Why a sweep gives no scenarios.
#[derive(Clone, Copy, Debug, PartialEq, Eq)]
pub enum SweepFault {
    /// A scenario has more vehicles than there may be, and none before it: its place, the line of
    /// the first demand row with which there are, and how many there are up to and with that row.
    TooMany {
        scenario: u32,
        line: u64,
        total: u64,
    },
    /// Memory is wanting.
    Memory,
}

impl From<AllocError> for SweepFault {
    ghost from_gives = { λ _ e. e ≡ fault.Memory };

    fn from(_: AllocError) -> Self {
        SweepFault::Memory
    }
}
