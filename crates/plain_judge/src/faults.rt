use std::alloc::AllocError;
use thiserror::Error;
use wide_sums::Memory;

/// The certificate or the property isn't of the first grammar.
#[derive(Clone, Copy, Debug, PartialEq, Eq)]
pub struct NotYet;

/// Why there is no judgement.
#[derive(Clone, Copy, Debug, PartialEq, Eq, Error)]
pub enum JudgeFault {
    /// The certificate or the property isn't of the first grammar.
    #[error("the certificate or the property is outside the first grammar")]
    NotYet,
    /// Memory ran out.
    #[error("out of memory")]
    Memory,
}

impl From<NotYet> for JudgeFault {
    ghost use Rattle.std.specs.Prelude.{◌≡◌};
    ghost use Rattle.plain_judge.specs.declared.faults.JudgeFault.TheVariants as fault;

    ghost from_gives = { λ want given. given ≡ fault.NotYet };

    fn from(_refused: NotYet) -> JudgeFault {
        JudgeFault::NotYet
    }
}

impl From<Memory> for JudgeFault {
    ghost use Rattle.std.specs.Prelude.{◌≡◌};
    ghost use Rattle.plain_judge.specs.declared.faults.JudgeFault.TheVariants as fault;

    ghost from_gives = { λ want given. given ≡ fault.Memory };

    fn from(_refused: Memory) -> JudgeFault {
        JudgeFault::Memory
    }
}

impl From<AllocError> for JudgeFault {
    ghost use Rattle.std.specs.Prelude.{◌≡◌};
    ghost use Rattle.plain_judge.specs.declared.faults.JudgeFault.TheVariants as fault;

    ghost from_gives = { λ want given. given ≡ fault.Memory };

    fn from(_refused: AllocError) -> JudgeFault {
        JudgeFault::Memory
    }
}

/// Why sums have no value.
#[derive(Clone, Copy, Debug, PartialEq, Eq)]
pub enum SumFault {
    /// The certificate or the property isn't of the first grammar.
    NotYet,
    /// A sum is out of range.
    Wide,
}

impl From<NotYet> for SumFault {
    ghost use Rattle.std.specs.Prelude.{◌≡◌};
    ghost use Rattle.plain_judge.specs.declared.faults.SumFault.TheVariants as fault;

    ghost from_gives = { λ want given. given ≡ fault.NotYet };

    fn from(_refused: NotYet) -> SumFault {
        SumFault::NotYet
    }
}
