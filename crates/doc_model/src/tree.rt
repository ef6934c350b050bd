use name_tables::Name;
use sqlite_items::Items;

/// An attribute of an element: its name and its value, with no escapes.
#[derive(Debug, Drop, PartialEq, Eq)]
pub struct Attribute {
    pub name: Name,
    pub value: Name,
}

/// An element of a document.
#[derive(Debug, Drop)]
pub struct Element {
    /// The offset of the element's `<` in the bytes that it was read from.
    pub at: u64,
    pub name: Name,
    pub attributes: Items<Attribute>,
    pub children: Items<Element>,
    /// The element's own characters, with no escapes.
    pub text: Name,
}
