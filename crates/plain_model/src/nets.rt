use name_tables::Name;
use sqlite_items::Items;

/// A place of a net file (ISO/IEC 15909-2, `place`).
#[derive(Debug, Drop)]
pub struct Place {
    /// The id of the place.
    pub id: Name,
    /// The tokens of the initial marking, from 0 to 2^63 - 1.
    pub marking: u64,
}

/// An arc of a net file (ISO/IEC 15909-2, `arc`).
#[derive(Debug, Drop)]
pub struct Arc {
    /// The id of the arc.
    pub id: Name,
    /// The id of the place or transition that it leaves.
    pub source: Name,
    /// The id of the transition or place that it enters.
    pub target: Name,
    /// Its inscription, from 1 to 2^63 - 1.
    pub weight: u64,
}

/// A place/transition net as its file says it, without references (ISO/IEC 15909-2, `ptnet`).
#[derive(Debug, Drop)]
pub struct PlainNet {
    /// The id of the net.
    pub id: Name,
    /// The places in file order.
    pub places: Items<Place>,
    /// The ids of the transitions in file order.
    pub transitions: Items<Name>,
    /// The arcs in file order.
    pub arcs: Items<Arc>,
}
