use name_tables::Name;
use net_model::Span;
use sqlite_items::Items;

/// A sort with its names followed. Two sorts are the same where these values are equal.
#[derive(Debug, Drop)]
pub enum Sort {
    /// The sort of the one colour dot.
    Dot,
    /// The enumeration that the named sort at this position declares.
    Listed(u32),
    /// The cyclic enumeration that the named sort at this position declares.
    Cyclic(u32),
    /// The numbers of a range.
    Range(Span),
    /// The tuples of colours of these sorts.
    Product(Items<Sort>),
}

/// A colour: a value of a sort.
#[derive(Debug, Drop)]
pub enum Colour {
    /// The dot.
    Dot,
    /// The constant of an enumeration, cyclic or not.
    Constant(Name),
    /// A number of a range.
    Number(i64),
    /// A tuple of colours.
    Tuple(Items<Colour>),
}

/// What an id stands for in a term.
#[derive(Debug, Drop)]
pub enum Declared {
    /// A constant: the enumeration that declares it, and its position there.
    Constant {
        /// The enumeration.
        sort: Sort,
        /// The position of the constant, from 0.
        index: u32,
    },
    /// An element of a partition.
    Block {
        /// The position of the partition.
        partition: u32,
        /// The position of the element in the partition.
        block: u32,
    },
}
