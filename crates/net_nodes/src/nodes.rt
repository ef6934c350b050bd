use thiserror::Error;
use wide_sums::Memory;

/// What the id of a node names (ISO/IEC 15909-2). The numbers count the nodes of one sort in the order of the net, from 0.
#[derive(Clone, Copy, Debug, PartialEq, Eq)]
pub enum Node {
    /// The place of this number.
    Place(u32),
    /// The transition of this number.
    Transition(u32),
    /// The reference of this number.
    Reference(u32),
}

/// A node that stands for itself, to which references lead in the end.
#[derive(Clone, Copy, Debug, PartialEq, Eq)]
pub enum End {
    /// The place of this number.
    Place(u32),
    /// The transition of this number.
    Transition(u32),
}

/// Why a reference leads to no node that it may stand for: what is met first along the chain of references that begins with it.
#[derive(Clone, Copy, Debug, PartialEq, Eq, Error)]
pub enum ReferenceFault {
    /// A target that is no node's id.
    #[error("a reference leads to no node")]
    UnknownNode,
    /// A chain that comes back to a reference.
    #[error("references lead round in a circle")]
    Circle,
    /// A node of the other kind than that which the first reference stands for.
    #[error("a reference leads to a node of the other kind")]
    OtherKind,
}

/// Why there is no table of a net's nodes.
#[derive(Clone, Copy, Debug, PartialEq, Eq, Error)]
pub enum NodeFault {
    /// The first reference of the net that leads to no node that it may stand for.
    #[error("a reference is broken")]
    Broken {
        /// The number of the reference.
        reference: u32,
        /// What is met first along its chain.
        fault: ReferenceFault,
    },
    /// Want of memory.
    #[error("there isn't enough memory")]
    Memory,
}

impl From<Memory> for NodeFault {
    ghost use Rattle.std.specs.Prelude.{◌≡◌};
    ghost use Rattle.net_nodes.specs.declared.nodes.NodeFault.TheVariants as fault;

    ghost from_gives = { λ want given. given ≡ fault.Memory };

    fn from(_refused: Memory) -> NodeFault {
        NodeFault::Memory
    }
}
