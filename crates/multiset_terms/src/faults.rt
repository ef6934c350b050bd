use colour_sorts::Rule;
use thiserror::Error;
use wide_sums::Memory;

/// Why a term or a guard is refused. A node's number is its place in prefix order, from 0; the terms of a guard count on.
#[derive(Clone, Copy, Debug, PartialEq, Eq, Error)]
pub enum TermFault {
    /// The first node that has no type though its children have types, and the first rule that it breaks.
    #[error("a term or guard breaks a typing rule")]
    IllTyped {
        /// The number of the node.
        at: u32,
        /// The rule.
        rule: Rule,
    },
    /// The first node that stands for more than 2^63 - 1 elements.
    #[error("a term stands for too many elements")]
    Weight {
        /// The number of the node.
        at: u32,
    },
    /// Want of memory.
    #[error("there isn't enough memory")]
    Memory,
}

/// Why a term has no value.
#[derive(Clone, Copy, Debug, PartialEq, Eq, Error)]
pub enum EvalFault {
    /// More is subtracted than there is.
    #[error("more is subtracted than there is")]
    Negative,
    /// Want of memory.
    #[error("there isn't enough memory")]
    Memory,
}

impl From<Memory> for EvalFault {
    ghost use Rattle.std.specs.Prelude.{◌≡◌};
    ghost use Rattle.multiset_terms.specs.declared.faults.EvalFault.TheVariants as fault;

    ghost from_gives = { λ want given. given ≡ fault.Memory };

    fn from(_want: Memory) -> EvalFault {
        EvalFault::Memory
    }
}

/// Why a part of a term can't be compiled.
#[derive(Clone, Copy, Debug, PartialEq, Eq)]
pub enum PartFault {
    /// The first node of the part that has no type though its children have types, and the first rule that it breaks.
    Broken {
        /// The number of the node.
        at: u32,
        /// The rule.
        rule: Rule,
    },
    /// Want of memory.
    Memory,
}

impl PartFault {
    ghost use Rattle.multiset_terms.specs.Parts.{IsMoved};

    /// The fault of a node behind so many others. Where a number is past all that a term in memory can have, memory is wanting.
    pub fn behind(self, nodes: u32) -> PartFault
        ensures { IsMoved nodes self result }
    {
        match self {
            PartFault::Broken { at, rule } => match nodes.checked_add(at) {
                Some(at) => PartFault::Broken { at, rule },
                None => PartFault::Memory,
            },
            PartFault::Memory => PartFault::Memory,
        }
    }
}

impl From<Memory> for PartFault {
    ghost use Rattle.std.specs.Prelude.{◌≡◌};
    ghost use Rattle.multiset_terms.specs.declared.faults.PartFault.TheVariants as fault;

    ghost from_gives = { λ want given. given ≡ fault.Memory };

    fn from(_want: Memory) -> PartFault {
        PartFault::Memory
    }
}
