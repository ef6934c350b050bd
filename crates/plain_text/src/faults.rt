ghost use Rattle.std.specs.Prelude.{◌≡◌};

use std::alloc::{AllocError, AllocFailed};
use thiserror::Error;
use wide_sums::Memory;

/// Why bytes aren't read as a value.
#[derive(Clone, Copy, Debug, PartialEq, Eq, Error)]
pub enum TextFault {
    /// They aren't the canonical text of a value that the reader takes.
    #[error("not a canonical text")]
    NotYet,
    /// There isn't the memory for the value.
    #[error("out of memory")]
    Memory,
}

impl From<Memory> for TextFault {
    ghost use Rattle.std.specs.Prelude.{◌≡◌};
    ghost use Rattle.plain_text.specs.declared.faults.TextFault.TheVariants as fault;

    ghost from_gives = { λ want given. given ≡ fault.Memory };

    fn from(_refused: Memory) -> TextFault {
        TextFault::Memory
    }
}

impl From<AllocError> for TextFault {
    ghost use Rattle.std.specs.Prelude.{◌≡◌};
    ghost use Rattle.plain_text.specs.declared.faults.TextFault.TheVariants as fault;

    ghost from_gives = { λ want given. given ≡ fault.Memory };

    fn from(_refused: AllocError) -> TextFault {
        TextFault::Memory
    }
}

impl<T: Drop> From<AllocFailed<T>> for TextFault {
    ghost use Rattle.std.specs.Prelude.{◌≡◌};
    ghost use Rattle.plain_text.specs.declared.faults.TextFault.TheVariants as fault;

    ghost from_gives = { λ want given. given ≡ fault.Memory };

    fn from(_refused: AllocFailed<T>) -> TextFault {
        TextFault::Memory
    }
}
