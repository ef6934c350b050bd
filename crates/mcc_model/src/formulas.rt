use sqlite_items::{Boxed, Items};

/// A number of tokens.
#[derive(Debug, Drop)]
pub enum Count {
    /// This number, below 2^63.
    Number(u64),
    /// The tokens of all colours on the places of these numbers. A place that is listed twice counts twice.
    Tokens(Items<u32>),
}

/// A formula about a marking.
#[derive(Debug, Drop)]
pub enum Formula {
    /// The child is not true.
    Not(Boxed<Formula>),
    /// All of the children are true.
    And(Items<Formula>),
    /// Some of the children are true.
    Or(Items<Formula>),
    /// The first number is at most the second one.
    AtMost(Count, Count),
    /// One of the transitions of these numbers can fire under some binding.
    Fireable(Items<u32>),
}

/// What a property says of the markings that are reached.
#[derive(Debug, Drop)]
pub struct Goal {
    /// Whether the formula is said of each marking that is reached; else it is said of some of them.
    pub universal: bool,
    /// The formula.
    pub formula: Formula,
}
