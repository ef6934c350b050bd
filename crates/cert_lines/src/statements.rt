use crate::certificates::{NodeForm, Version};
use line_words::{Factor, InstanceRef, PlaceRef, Weight};
use name_tables::Name;
use sqlite_items::Items;

/// The first words of the lines.
#[derive(Clone, Copy, Debug, PartialEq, Eq)]
pub enum Keyword {
    Bound,
    Cases,
    Certificate,
    Clash,
    Close,
    Each,
    End,
    Flow,
    Proof,
    Property,
    Split,
    Step,
    Trap,
}

/// What a fact's own line claims.
#[derive(Drop)]
pub enum Claim {
    Flow(Items<Weight>),
    Trap(Items<PlaceRef>),
    Bound { limit: i64, weights: Items<Weight> },
}

/// A step of a bound without the number of its line.
#[derive(Drop)]
pub struct StepClaim {
    pub origin: InstanceRef,
    pub scale: i64,
    pub keep: i64,
    pub factors: Items<Factor>,
}

/// What one line says, without its number.
#[derive(Drop)]
pub enum Statement {
    Certificate(Version),
    Property(Name),
    Fact { name: Name, claim: Claim },
    Step(StepClaim),
    Proof,
    Node(NodeForm),
    End,
}
