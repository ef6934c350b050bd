use std::alloc::{AllocError, AllocFailed};
use thiserror::Error;
use wide_sums::Memory;

/// Why there are no rows.
#[derive(Clone, Copy, Debug, PartialEq, Eq, Error)]
pub enum BuildFault {
    /// The net is none that is taken yet.
    #[error("the net is none that is taken yet")]
    NotYet,
    /// An allocation was refused.
    #[error("not enough memory")]
    Memory,
}

impl From<Memory> for BuildFault {
    ghost use Rattle.std.specs.Prelude.{◌≡◌};
    ghost use Rattle.plain_rows.specs.declared.faults.BuildFault.TheVariants as fault;

    ghost from_gives = { λ want given. given ≡ fault.Memory };

    fn from(_refused: Memory) -> BuildFault {
        BuildFault::Memory
    }
}

impl From<AllocError> for BuildFault {
    ghost use Rattle.std.specs.Prelude.{◌≡◌};
    ghost use Rattle.plain_rows.specs.declared.faults.BuildFault.TheVariants as fault;

    ghost from_gives = { λ want given. given ≡ fault.Memory };

    fn from(_refused: AllocError) -> BuildFault {
        BuildFault::Memory
    }
}

impl<T: Drop> From<AllocFailed<T>> for BuildFault {
    ghost use Rattle.std.specs.Prelude.{◌≡◌};
    ghost use Rattle.plain_rows.specs.declared.faults.BuildFault.TheVariants as fault;

    ghost from_gives = { λ want given. given ≡ fault.Memory };

    fn from(_refused: AllocFailed<T>) -> BuildFault {
        BuildFault::Memory
    }
}
