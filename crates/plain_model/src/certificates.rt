use name_tables::Name;
use sqlite_items::Items;

/// A coefficient on a place, `V*P` in a certificate.
#[derive(Debug, Drop)]
pub struct Weight {
    /// The coefficient, of an absolute value up to 2^63 - 1.
    pub value: i64,
    /// The id of the place.
    pub place: Name,
}

/// A claimed place flow: a weighted sum of tokens that no firing changes (Murata 1989, S-invariants).
#[derive(Debug, Drop)]
pub struct Flow {
    /// The name by which `close` speaks of it.
    pub name: Name,
    /// Its coefficients; a place that isn't listed has 0.
    pub weights: Items<Weight>,
}

/// A multiple of a fact, `V*NAME` in a certificate.
#[derive(Debug, Drop)]
pub struct Factor {
    /// The multiplier, of an absolute value up to 2^63 - 1.
    pub value: i64,
    /// The name of the fact.
    pub fact: Name,
}

/// One summand of a `close` line.
#[derive(Debug, Drop)]
pub enum Multiplier {
    /// A multiple of a fact, of either sign where the fact is a flow.
    Fact(Factor),
    /// A multiple of the hypothesis with this number, `V*@H` in a certificate.
    Hypothesis {
        /// The multiplier; the obligation is false where it is negative.
        value: i64,
        /// The hypothesis, from 1: the negated invariant is number 1.
        number: u32,
    },
}

/// A certificate of flows and one `close`.
#[derive(Debug, Drop)]
pub struct Certificate {
    /// The id of the property that it is for.
    pub property: Name,
    /// The flows in file order.
    pub flows: Items<Flow>,
    /// The summands of the `close` line in its order.
    pub close: Items<Multiplier>,
}
