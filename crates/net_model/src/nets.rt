use crate::kinds::Kind;
use crate::sorts::{NamedSort, Partition, SortTerm};
use crate::terms::{Guard, Term};
use name_tables::Name;
use sqlite_items::Items;

/// What stands at a place as its marking, or at an arc as its inscription.
#[derive(Debug, Drop)]
pub enum Label {
    /// Nothing stands there. So it is only in a symmetric net.
    Absent,
    /// A number of dots, below 2^63: the marking or the weight in a place/transition net. A marking that the file leaves out
    /// is 0, and a weight 1.
    Count(u64),
    /// The multiset that a term gives, in a symmetric net.
    Multiset(Term),
}

/// A place.
#[derive(Debug, Drop)]
pub struct Place {
    /// The id, distinct from those of all other places, transitions, references and arcs.
    pub id: Name,
    /// The sort of its colours: the dot in a place/transition net.
    pub sort: SortTerm,
    /// The initial marking.
    pub marking: Label,
}

/// A transition.
#[derive(Debug, Drop)]
pub struct Transition {
    /// The id, distinct from those of all other nodes and arcs.
    pub id: Name,
    /// The condition under which it fires; where there is none, it always does.
    pub guard: Option<Guard>,
}

/// An arc.
#[derive(Debug, Drop)]
pub struct Arc {
    /// The id, distinct from those of all other arcs and nodes.
    pub id: Name,
    /// The id of the node where it begins. No node needs to have it.
    pub source: Name,
    /// The id of the node where it ends. No node needs to have it.
    pub target: Name,
    /// What the arc moves.
    pub label: Label,
}

/// What a reference stands for.
#[derive(Clone, Copy, Debug, PartialEq, Eq)]
pub enum RefKind {
    /// A place.
    Place,
    /// A transition.
    Transition,
}

/// A node that stands for another.
#[derive(Debug, Drop)]
pub struct Reference {
    /// The id, distinct from those of all other nodes and arcs.
    pub id: Name,
    /// Whether it stands for a place or for a transition.
    pub kind: RefKind,
    /// The id of the node that it stands for, which may be a reference again. No node needs to have it.
    pub target: Name,
}

/// A declaration of a variable.
#[derive(Debug, Drop)]
pub struct VariableDecl {
    /// The id, distinct from those of all other variables, named sorts, constants, partitions and blocks.
    pub id: Name,
    /// The sort of its colours.
    pub sort: SortTerm,
}

/// A net. Each list is in the order of the file, through all pages.
#[derive(Debug, Drop)]
pub struct Net {
    /// The id of the net. Nodes, arcs and symbols may have it too.
    pub id: Name,
    /// The type of the net.
    pub kind: Kind,
    /// The named sorts; none in a place/transition net.
    pub sorts: Items<NamedSort>,
    /// The partitions; none in a place/transition net.
    pub partitions: Items<Partition>,
    /// The variables; none in a place/transition net.
    pub variables: Items<VariableDecl>,
    pub places: Items<Place>,
    pub transitions: Items<Transition>,
    /// The nodes that stand for others.
    pub references: Items<Reference>,
    pub arcs: Items<Arc>,
}
