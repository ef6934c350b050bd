use doc_tree::Fault;
use thiserror::Error;
use wide_sums::Memory;

/// Why a tree was refused as a net.
#[derive(Clone, Copy, Debug, PartialEq, Eq, Error)]
pub enum ReadFault {
    /// The element at this offset breaks a rule, and it is the first one that does.
    #[error("a net is broken at offset {at}")]
    Structure {
        /// The offset of the element's `<`.
        at: u64,
        /// The rule.
        kind: Fault,
    },
    /// Memory ran out.
    #[error("out of memory")]
    Memory,
}

impl From<Memory> for ReadFault {
    ghost use Rattle.std.specs.Prelude.{◌≡◌};
    ghost use Rattle.net_elements.specs.declared.faults.ReadFault.TheVariants as fault;

    ghost from_gives = { λ _ read. read ≡ fault.Memory };

    fn from(_memory: Memory) -> ReadFault {
        ReadFault::Memory
    }
}
