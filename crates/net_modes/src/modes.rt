use colour_sorts::Sort;
use guard_walks::GuardWalk;
use multiset_terms::CTerm;
use sqlite_items::Items;
use wide_sums::Row;

/// A place with its sort and its initial marking.
#[derive(Debug, Drop)]
pub struct TypedPlace {
    /// The sort.
    pub sort: Sort,
    /// How many colours the sort has.
    pub size: u32,
    /// How often each colour is there at the start, by its number.
    pub initial: Row,
}

/// An arc of a transition.
#[derive(Debug, Drop)]
pub struct TypedArc {
    /// Its number among all arcs of the net.
    pub arc: u32,
    /// The number of the place at its other end, references followed.
    pub place: u32,
    /// Its inscription.
    pub term: CTerm,
}

/// A transition with the walk over its bindings, and its arcs on both sides in the order of the net.
#[derive(Debug, Drop)]
pub struct TypedTransition {
    /// Its variables and its guard.
    pub walk: GuardWalk,
    /// The arcs that lead to it.
    pub inputs: Items<TypedArc>,
    /// The arcs that lead away from it.
    pub outputs: Items<TypedArc>,
}

/// What unfolding asks of a typed net, beside the declarations that its terms and guards are compiled over. Contracts say which net it
/// stands for.
#[derive(Debug, Drop)]
pub struct NetModes {
    /// The places.
    pub places: Items<TypedPlace>,
    /// The number of the first instance of each place, and behind them the number of all instances.
    pub starts: Items<u32>,
    /// The transitions.
    pub transitions: Items<TypedTransition>,
}
