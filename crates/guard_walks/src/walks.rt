use colour_sorts::Domains;
use multiset_terms::{CGuard, Variables};
use sqlite_items::Items;

/// The declared sorts, partitions and variables that terms and guards stand over.
#[derive(Debug, Drop)]
pub struct Signature {
    /// The sorts and partitions.
    pub domains: Domains,
    /// The variables.
    pub variables: Variables,
}

/// A part of a guard, tested when so many variables are bound.
#[derive(Clone, Copy, Debug, PartialEq, Eq, PartialOrd, Ord)]
pub struct Test {
    /// How many variables are bound by then.
    pub needs: u32,
    /// The position of the part among the parts of the guard.
    pub part: u32,
}

/// The variables of a transition in the order in which they are bound, and its guard. Contracts say what it stands for.
#[derive(Debug, Drop)]
pub struct GuardWalk {
    /// The number of each variable among all that are declared.
    pub variables: Items<u32>,
    /// How many colours the sort of each has.
    pub sizes: Items<u32>,
    /// How many bindings there are.
    pub total: u32,
    /// The guard.
    pub guard: CGuard,
    /// Its parts, in the order in which they are tested.
    pub tests: Items<Test>,
}
