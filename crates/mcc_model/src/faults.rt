use doc_tree::Fault;
use net_elements::ReadFault;
use thiserror::Error;
use wide_sums::Memory;

/// Why a property file, or a property of it, was refused.
#[derive(Clone, Copy, Debug, PartialEq, Eq, Error)]
pub enum FormulaFault {
    /// The element at this offset breaks a rule of property files, and it is the first one that does.
    #[error("a property file is broken at offset {at}")]
    Structure {
        /// The offset of the element's `<`.
        at: u64,
        /// The rule.
        kind: Fault,
    },
    /// No property has the id.
    #[error("no property has this id")]
    NoProperty,
    /// The formula is no reachability property because of the element at this offset.
    #[error("a formula is no reachability property because of offset {at}")]
    NotReachability {
        /// The offset of the element's `<`.
        at: u64,
    },
    /// The element at this offset names a place or a transition that the net does not have.
    #[error("no such node is in the net, at offset {at}")]
    UnknownNode {
        /// The offset of the element's `<`.
        at: u64,
    },
    /// Memory ran out.
    #[error("out of memory")]
    Memory,
}

impl From<Memory> for FormulaFault {
    ghost use Rattle.std.specs.Prelude.{◌≡◌};
    ghost use Rattle.mcc_model.specs.declared.faults.FormulaFault.TheVariants as fault;

    ghost from_gives = { λ _ formula. formula ≡ fault.Memory };

    fn from(_memory: Memory) -> FormulaFault {
        FormulaFault::Memory
    }
}

impl From<ReadFault> for FormulaFault {
    ghost use Rattle.std.specs.Prelude.{◌≡◌};
    ghost use Rattle.mcc_model.specs.Faults.{of_read};

    ghost from_gives = { λ read formula. formula ≡ of_read read };

    fn from(fault: ReadFault) -> FormulaFault {
        match fault {
            ReadFault::Structure { at, kind } => FormulaFault::Structure { at, kind },
            ReadFault::Memory => FormulaFault::Memory,
        }
    }
}
