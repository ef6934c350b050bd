use std::alloc::{AllocError, AllocFailed};
use thiserror::Error;
use wide_sums::Memory;

/// Why bytes aren't read as a certificate: the first line with a fault, and on one line the first
/// of these in their order. Lines are numbered from 1, those that are passed over included.
#[derive(Clone, Copy, Debug, PartialEq, Eq, Error)]
pub enum CertFault {
    /// A line that can't stand in its place; where the end is missing, the number of lines plus 1.
    #[error("line {number} can't stand there")]
    Line {
        /// The number of the line.
        number: u32,
    },
    /// A fact whose name an earlier fact has, or a step of a bound at a transition instance that an
    /// earlier step of that bound has.
    #[error("line {number} says again what an earlier line says")]
    Repeated {
        /// The number of the line.
        number: u32,
    },
    /// A line on which the absolute values on one place id, on one name or on one hypothesis add up
    /// past 2^63 - 1.
    #[error("the coefficients of line {number} are too large")]
    Coefficient {
        /// The number of the line.
        number: u32,
    },
    /// A node past the 1,048,576th, or deeper in the tree than 256.
    #[error("line {number} is past the limits of a tree")]
    CertLimit {
        /// The number of the line.
        number: u32,
    },
    /// There isn't the memory for the certificate.
    #[error("out of memory")]
    Memory,
}

impl From<Memory> for CertFault {
    ghost use Rattle.std.specs.Prelude.{◌≡◌};
    ghost use Rattle.cert_reader.specs.declared.faults.CertFault.TheVariants as fault;

    ghost from_gives = { λ want given. given ≡ fault.Memory };

    fn from(_refused: Memory) -> CertFault {
        CertFault::Memory
    }
}

impl From<AllocError> for CertFault {
    ghost use Rattle.std.specs.Prelude.{◌≡◌};
    ghost use Rattle.cert_reader.specs.declared.faults.CertFault.TheVariants as fault;

    ghost from_gives = { λ want given. given ≡ fault.Memory };

    fn from(_refused: AllocError) -> CertFault {
        CertFault::Memory
    }
}

impl<T: Drop> From<AllocFailed<T>> for CertFault {
    ghost use Rattle.std.specs.Prelude.{◌≡◌};
    ghost use Rattle.cert_reader.specs.declared.faults.CertFault.TheVariants as fault;

    ghost from_gives = { λ want given. given ≡ fault.Memory };

    fn from(_refused: AllocFailed<T>) -> CertFault {
        CertFault::Memory
    }
}
