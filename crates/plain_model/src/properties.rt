use name_tables::Name;
use sqlite_items::Items;

/// One side of a comparison (Model Checking Contest, `integer-constant` and `tokens-count`).
#[derive(Debug, Drop)]
pub enum Count {
    /// A number, from 0 to 2^63 - 1.
    Number(u64),
    /// The tokens on these places, a place listed twice twice.
    Tokens(Items<Name>),
}

/// A property of the form `all-paths globally integer-le(left, right)` (Model Checking Contest).
#[derive(Debug, Drop)]
pub struct Property {
    /// The id of the property.
    pub id: Name,
    /// The side that is at most the other one.
    pub left: Count,
    /// The side that is at least the other one.
    pub right: Count,
}
