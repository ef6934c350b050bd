use name_tables::Name;
use thiserror::Error;

/// The typing rules of symmetric nets, in the order in which they are looked for. A refusal names
/// the one that is broken.
#[derive(Clone, Copy, Debug, PartialEq, Eq)]
pub enum Rule {
    /// A name in a sort is the id of no named sort.
    UnknownSort,
    /// The names in a sort lead round in a circle.
    SortCircle,
    /// The first number of a range is above its last.
    RangeUpsideDown,
    /// An enumeration has no constants.
    EmptySort,
    /// A product has no components.
    EmptyProduct,
    /// A sort has more than 2^20 colours, more than 4,096 sorts in it or a depth above 256.
    DomainLimit,
    /// The sort of a partition is neither an enumeration nor a range.
    PartitionSort,
    /// A member of a block is no colour of the partition's sort.
    PartitionMember,
    /// A colour of the partition's sort stands in no block or twice.
    PartitionCover,
    /// A variable stands in an initial marking.
    VariableInMarking,
    /// No variable has the id.
    UnknownVariable,
    /// The id is neither a constant nor an element of a partition.
    UnknownOperator,
    /// A number is outside its range.
    RangeConstant,
    /// A successor or predecessor is taken of what is no colour of a cyclic enumeration.
    NotCyclic,
    /// A colour has to stand here.
    NotAColour,
    /// A multiset has to stand here.
    NotAMultiset,
    /// Two sorts that have to be the same differ.
    SortsDiffer,
    /// No partition has the id.
    UnknownPartition,
    /// The colours of the sort have no order.
    NoOrder,
    /// No node has the id.
    UnknownNode,
    /// References lead round in a circle.
    ReferenceCircle,
    /// A reference leads to a node of the other kind.
    ReferenceKind,
    /// Both ends of an arc are places, or both are transitions.
    SameSide,
    /// An arc at a place whose sort isn't dot has no inscription.
    NoInscription,
}

/// Why sorts and partitions are refused.
#[derive(Debug, Drop, Error)]
pub enum SortFault {
    /// The first sort or partition that breaks a rule, and the first rule that it breaks.
    #[error("a sort or partition breaks a rule")]
    Bad {
        /// The id of the named sort or the partition.
        id: Name,
        /// The rule.
        rule: Rule,
    },
    /// Want of memory.
    #[error("there isn't enough memory")]
    Memory,
}

/// Why a sort is refused.
#[derive(Clone, Copy, Debug, PartialEq, Eq, Error)]
pub enum ResolveFault {
    /// The first rule that the sort breaks.
    #[error("the sort breaks a rule")]
    Bad {
        /// The rule.
        rule: Rule,
    },
    /// Want of memory.
    #[error("there isn't enough memory")]
    Memory,
}
