// Why a run stops before its work.
ghost use Rattle.std.specs.Prelude.{◌≡◌};
ghost use Rattle.jobs.specs.Stops.{stop_at_release, stop_at_scale, stop_of};
ghost use Rattle.jobs.specs.declared.stop.Stop.TheVariants as stop;

use reports::Refusal;
use row_reader::TableRefusal;
use scaled_demand::SweepFault;
use std::alloc::AllocError;
use vehicle_release::ReleaseFault;

/// Why a run stops before its work.
#[derive(Clone, Copy, Debug, PartialEq, Eq)]
pub enum Stop {
    /// The run is refused.
    Refused(Refusal),
    /// There was no memory.
    Memory,
}

impl From<AllocError> for Stop {
    ghost from_gives = { λ _ e. e ≡ stop.Memory };

    fn from(_: AllocError) -> Self {
        Stop::Memory
    }
}

impl From<TableRefusal> for Stop {
    ghost from_gives = { λ why e. e ≡ stop_of why };

    fn from(why: TableRefusal) -> Self {
        match why {
            TableRefusal::Fault(fault) => Stop::Refused(Refusal::Table(fault)),
            TableRefusal::Memory => Stop::Memory,
        }
    }
}

impl From<ReleaseFault> for Stop {
    ghost from_gives = { λ why e. e ≡ stop_at_release why };

    fn from(why: ReleaseFault) -> Self {
        match why {
            ReleaseFault::TooMany { line, total } => {
                Stop::Refused(Refusal::Vehicles { line, total })
            }
            ReleaseFault::Memory => Stop::Memory,
        }
    }
}

impl From<SweepFault> for Stop {
    ghost from_gives = { λ why e. e ≡ stop_at_scale why };

    fn from(why: SweepFault) -> Self {
        match why {
            SweepFault::TooMany { line, total, .. } => {
                Stop::Refused(Refusal::Vehicles { line, total })
            }
            SweepFault::Memory => Stop::Memory,
        }
    }
}
