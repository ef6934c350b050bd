use name_tables::Name;

/// A place of the net file, or one of its instances: `P` or `P@K`.
#[derive(Debug, Drop)]
pub struct PlaceRef {
    /// The id of the place.
    pub place: Name,
    /// The index of the colour, from 0; `None` stands for all colours of the place.
    pub colour: Option<u32>,
}

/// A transition instance: `T@K`.
#[derive(Debug, Drop, PartialEq, Eq, Hash)]
pub struct InstanceRef {
    /// The id of the transition.
    pub transition: Name,
    /// The index of the binding, from 0.
    pub binding: u32,
}

/// A coefficient on a place, `V*P` or `V*P@K`.
#[derive(Debug, Drop)]
pub struct Weight {
    /// The coefficient, of an absolute value up to 2^63 - 1.
    pub value: i64,
    /// The place that it stands on.
    pub place: PlaceRef,
}

/// A multiple of a fact, `V*NAME`.
#[derive(Debug, Drop)]
pub struct Factor {
    /// The multiplier, of an absolute value up to 2^63 - 1.
    pub value: i64,
    /// The name of the fact.
    pub fact: Name,
}

/// A multiple of a fact or of a hypothesis.
#[derive(Debug, Drop)]
pub enum Multiplier {
    /// A multiple of a fact, `V*NAME`.
    Fact(Factor),
    /// A multiple of a hypothesis, `V*@H`.
    Hypothesis {
        /// The multiplier, of an absolute value up to 2^63 - 1.
        value: i64,
        /// The number of the hypothesis; those that are there are numbered from 1.
        number: u32,
    },
}
