use name_tables::Name;
use sqlite_items::Items;

/// The whole numbers from `first` to `last`, both of them included.
#[derive(Clone, Copy, Debug, PartialEq, Eq)]
pub struct Span {
    /// The least number.
    pub first: i64,
    /// The greatest number.
    pub last: i64,
}

/// A sort as it is written (ISO/IEC 15909-2, symmetric nets).
#[derive(Debug, Drop)]
pub enum SortTerm {
    /// The sort of the one colour dot.
    Dot,
    /// The sort that a named sort of this id stands for.
    Named(Name),
    /// The tuples of colours of these sorts.
    Product(Items<SortTerm>),
    /// The numbers of a range.
    Range(Span),
    /// An enumeration: its constants in order. It stands only as the whole sort of a named sort.
    Listed(Items<Name>),
    /// A cyclic enumeration: its constants in order. It stands only as the whole sort of a named
    /// sort.
    Cyclic(Items<Name>),
}

/// A declaration of a sort under a name.
#[derive(Debug, Drop)]
pub struct NamedSort {
    /// The name.
    pub id: Name,
    /// What it stands for.
    pub sort: SortTerm,
}

/// A colour that a block of a partition lists.
#[derive(Debug, Drop)]
pub enum Member {
    /// The constant of an enumeration.
    Constant(Name),
    /// A number of the range with this span.
    Number {
        /// The number.
        value: i64,
        /// The span of the range that it is meant to be of.
        span: Span,
    },
    /// The dot.
    Dot,
}

/// An element of a partition: a block of colours with a name.
#[derive(Debug, Drop)]
pub struct Block {
    /// The name.
    pub id: Name,
    /// Its colours.
    pub members: Items<Member>,
}

/// A declaration of a partition: the colours of a sort in blocks.
#[derive(Debug, Drop)]
pub struct Partition {
    /// The name.
    pub id: Name,
    /// The sort that is divided.
    pub sort: SortTerm,
    /// The blocks in order.
    pub elements: Items<Block>,
}
