use crate::sorts::{SortTerm, Span};
use name_tables::Name;
use sqlite_items::{Boxed, Items};

/// A term of a symmetric net as it is written (ISO/IEC 15909-2). Each `Add` and each `Tuple` has at least one child.
#[derive(Debug, Drop)]
pub enum Term {
    /// The variable of this id.
    Variable(Name),
    /// The constant of an enumeration, or the element of a partition, of this id.
    Operator(Name),
    /// The dot.
    Dot,
    /// A number of the range with this span.
    Number {
        /// The number.
        value: i64,
        /// The span of the range.
        span: Span,
    },
    /// The next colour of a cyclic enumeration.
    Successor(Boxed<Term>),
    /// The colour before in a cyclic enumeration.
    Predecessor(Boxed<Term>),
    /// The tuples of the children's colours.
    Tuple(Items<Term>),
    /// Each colour of a sort once.
    All(SortTerm),
    /// No colour of a sort.
    Empty(SortTerm),
    /// So many times the child.
    NumberOf(u64, Boxed<Term>),
    /// So many times the child.
    Scalar(u64, Boxed<Term>),
    /// The sum of the children.
    Add(Items<Term>),
    /// The first child without the second.
    Subtract(Boxed<Term>, Boxed<Term>),
    /// The block of the partition of this id that has the child's colour.
    BlockOf(Name, Boxed<Term>),
}

/// How two colours are compared.
#[derive(Clone, Copy, Debug, PartialEq, Eq)]
pub enum Order {
    /// They are the same.
    Equal,
    /// They aren't the same.
    Unequal,
    /// The first stands before the second.
    Less,
    /// The first stands before the second or is the same.
    LessEqual,
    /// The first stands behind the second.
    Greater,
    /// The first stands behind the second or is the same.
    GreaterEqual,
}

/// A guard of a symmetric net as it is written.
#[derive(Debug, Drop)]
pub enum Guard {
    /// True or false.
    Constant(bool),
    /// All of the children.
    And(Items<Guard>),
    /// Some of the children.
    Or(Items<Guard>),
    /// Not the child.
    Not(Boxed<Guard>),
    /// Where the first child is true, the second.
    Imply(Boxed<Guard>, Boxed<Guard>),
    /// A comparison of two terms.
    Compare(Order, Term, Term),
}
