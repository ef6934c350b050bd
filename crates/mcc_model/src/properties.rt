use doc_model::Element;
use name_tables::Name;
use sqlite_items::Items;

/// A property of a property file.
#[derive(Debug, Drop)]
pub struct Property {
    /// Its id, distinct from those of the other properties of the file.
    pub id: Name,
    /// Its element `formula`, in which no rule of formulas has been looked at.
    pub formula: Element,
}

/// The properties of a property file, in the order of the file.
#[derive(Debug, Drop)]
pub struct Properties {
    pub list: Items<Property>,
}
