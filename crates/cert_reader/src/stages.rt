/// What the next line that isn't passed over has to be.
#[derive(Clone, Copy, Debug, PartialEq, Eq)]
pub enum Stage {
    /// The version line.
    Version,
    /// In version 1, the property line.
    Property,
    /// A fact, a step of the last fact, or what is to come behind the facts.
    Facts,
    /// In version 2, `proof` behind a property.
    Proof,
    /// A node of the tree.
    Tree,
    /// In version 2 a property, and in both `end`.
    Sections,
    /// There may be no such line.
    Nothing,
}
