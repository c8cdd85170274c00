// Why an assignment ends early.
ghost use Rattle.std.specs.Prelude.{◌≡◌};
ghost use Rattle.assign_command.specs.Progress.{halt_of};
ghost use Rattle.assign_command.specs.declared.halt.Halt.TheVariants as halt;

use desk_io::Failed;
use loader::LoadFault;
use std::alloc::{AllocError, AllocFailed};

/// Why an assignment ends before its last iteration is done.
#[derive(Clone, Copy, Debug, PartialEq, Eq)]
pub(crate) enum Halt {
    /// There was no memory.
    Memory,
    /// A watch line couldn't be put.
    Watch,
}

impl From<AllocError> for Halt {
    ghost from_gives = { λ _ e. e ≡ halt.Memory };

    fn from(_: AllocError) -> Self {
        Halt::Memory
    }
}

impl<T: Drop> From<AllocFailed<T>> for Halt {
    ghost from_gives = { λ _ e. e ≡ halt.Memory };

    fn from(_: AllocFailed<T>) -> Self {
        Halt::Memory
    }
}

impl From<Failed> for Halt {
    ghost from_gives = { λ _ e. e ≡ halt.Watch };

    fn from(_: Failed) -> Self {
        Halt::Watch
    }
}

impl From<LoadFault> for Halt {
    ghost from_gives = { λ why e. e ≡ halt_of why };

    fn from(why: LoadFault) -> Self {
        match why {
            LoadFault::Memory => Halt::Memory,
            LoadFault::WatchFault => Halt::Watch,
        }
    }
}
