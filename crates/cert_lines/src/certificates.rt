use line_words::{Factor, Multiplier, PlaceRef, Weight};
use name_tables::Name;
use sqlite_items::Items;

/// What a bound needs at one transition instance, `T@K` in a certificate.
#[derive(Debug, Drop)]
pub struct Step {
    /// The number of its line, from 1.
    pub line: u32,
    /// The id of the transition.
    pub transition: Name,
    /// The index of the binding, from 0.
    pub binding: u32,
    /// The multiplier of the bound after the firing, of an absolute value up to 2^63 - 1.
    pub scale: i64,
    /// The multiplier of the bound before the firing, of an absolute value up to 2^63 - 1.
    pub keep: i64,
    /// The multiples of earlier facts that help.
    pub factors: Items<Factor>,
}

/// What a fact claims.
#[derive(Debug, Drop)]
pub enum FactKind {
    /// A weighted sum of tokens that no firing changes (Murata 1989, S-invariants).
    Flow(Items<Weight>),
    /// A set of places that keeps a token once it has one (Murata 1989, traps).
    Trap(Items<PlaceRef>),
    /// A weighted sum of tokens that stays at or below a limit.
    Bound {
        /// The limit, of an absolute value up to 2^63 - 1.
        limit: i64,
        /// The weighted sum; a place that isn't listed has 0.
        weights: Items<Weight>,
        /// What single transition instances need, in file order.
        steps: Items<Step>,
    },
}

/// A named fact.
#[derive(Debug, Drop)]
pub struct Fact {
    /// The number of its line, from 1.
    pub line: u32,
    /// The name by which later lines speak of it.
    pub name: Name,
    /// What it claims.
    pub kind: FactKind,
}

/// What a node of the case tree does.
#[derive(Debug, Drop)]
pub enum NodeForm {
    /// Ends a branch: a sum of facts and hypotheses that no marking meets.
    Close(Items<Multiplier>),
    /// Ends a branch: a place whose least count passes its greatest.
    Clash(PlaceRef),
    /// Two branches: a weighted sum of tokens is at or below the limit, or above it.
    Split {
        /// The limit, of an absolute value up to 2^63 - 1.
        limit: i64,
        /// The weighted sum; a place that isn't listed has 0.
        weights: Items<Weight>,
    },
    /// One branch for each item of a choice.
    Cases {
        /// The number of the choice; those that are there are numbered from 1.
        choice: u32,
        /// How many branches follow.
        branches: u32,
    },
    /// One branch that serves each item of a choice.
    Each {
        /// The number of the choice; those that are there are numbered from 1.
        choice: u32,
    },
}

/// A node of the case tree.
#[derive(Debug, Drop)]
pub struct Node {
    /// The number of its line, from 1.
    pub line: u32,
    /// What it does.
    pub form: NodeForm,
}

/// The version of a certificate.
#[derive(Clone, Copy, Debug, PartialEq, Eq)]
pub enum Version {
    /// One property, before the facts.
    One,
    /// Any number of properties, behind the facts that they share.
    Two,
}

/// A property and the case tree for it.
#[derive(Debug, Drop)]
pub struct Section {
    /// The number of the property's line, from 1.
    pub line: u32,
    /// The id of the property.
    pub property: Name,
    /// The nodes of the tree, each before its branches and those in order.
    pub tree: Items<Node>,
}

/// A certificate.
#[derive(Debug, Drop)]
pub struct Cert {
    /// The version that it is written in.
    pub version: Version,
    /// The facts in file order.
    pub facts: Items<Fact>,
    /// The properties with their trees, in file order; exactly one in version 1.
    pub sections: Items<Section>,
}
