ghost use Rattle.std.specs.Prelude.{◌≡◌, map};
ghost use Rattle.net_elements.specs.Table.{arc_labels, keys_of, nodes_of, place_labels, slots_of, transition_labels};
ghost use Rattle.net_elements.specs.Rows.{slot_view};

use crate::roles::{Key, Role};
use net_model::Kind;

/// How many children there may be of some roles.
#[derive(Clone, Copy, Debug, PartialEq, Eq)]
pub enum Count {
    /// Any number.
    Any,
    /// At most one.
    AtMostOne,
    /// Exactly one.
    One,
    /// At least one.
    OneOrMore,
    /// One of each role, in the order of the roles.
    InTurn,
}

/// Some of the children of an element: the roles in which they are read, and how many of them there may be.
#[derive(Clone, Copy, Debug)]
pub struct Slot {
    pub roles: &'static [Role],
    pub count: Count,
}

/// The attributes of the elements of a role, in the order in which they are judged.
pub fn keys_of(role: Role) -> &'static [Key]
    ensures { result.now ≡ keys_of role }
{
    match role {
        Role::Net => &[Key::AnyId, Key::NetType],
        Role::Page => &[Key::AnyId],
        Role::Place | Role::Transition => &[Key::NodeId],
        Role::Arc => &[Key::NodeId, Key::Source, Key::Target],
        Role::ReferencePlace | Role::ReferenceTransition => &[Key::NodeId, Key::Ref],
        Role::NamedSort
        | Role::VariableDecl
        | Role::Partition
        | Role::PartitionElement
        | Role::FeConstant => &[Key::SymbolId],
        Role::UserSort | Role::UserOperator => &[Key::Operand],
        Role::FiniteIntRange => &[Key::Start, Key::End],
        Role::Variable => &[Key::RefVariable],
        Role::FiniteIntRangeConstant => &[Key::SignedValue],
        Role::NumberConstant => &[Key::CountValue],
        Role::PartitionElementOf => &[Key::RefPartition],
        Role::BooleanConstant => &[Key::TruthValue],
        _ => &[],
    }
}

macro_rules! slots {
    ($($count:ident [$($role:ident),*])*) => {
        &[$(Slot { roles: &[$(Role::$role),*], count: Count::$count }),*]
    };
}

const ROOT: &[Slot] = slots! { One [Net] };

const PT_NODES: &[Slot] = slots! {
    Any [Page] Any [Place] Any [Transition] Any [Arc] Any [ReferencePlace] Any [ReferenceTransition]
};

const NODES: &[Slot] = slots! {
    Any [Page] Any [Place] Any [Transition] Any [Arc] Any [ReferencePlace] Any [ReferenceTransition]
    Any [Declaration]
};

const NOTHING: &[Slot] = slots! {};

const PT_PLACE_LABELS: &[Slot] = slots! { AtMostOne [InitialMarking] };

const PLACE_LABELS: &[Slot] = slots! { One [PlaceType] AtMostOne [HlInitialMarking] };

const TRANSITION_LABELS: &[Slot] = slots! { AtMostOne [Condition] };

const PT_ARC_LABELS: &[Slot] = slots! { AtMostOne [Inscription] };

const ARC_LABELS: &[Slot] = slots! { AtMostOne [HlInscription] };

const ONE_TEXT: &[Slot] = slots! { One [Text] };

const ONE_SORT_STRUCTURE: &[Slot] = slots! { One [SortStructure] };

const ONE_TERM_STRUCTURE: &[Slot] = slots! { One [TermStructure] };

const ONE_GUARD_STRUCTURE: &[Slot] = slots! { One [GuardStructure] };

const ONE_DECLARATION_STRUCTURE: &[Slot] = slots! { One [DeclarationStructure] };

const ONE_SORT: &[Slot] = slots! { One [Dot, UserSort, ProductSort, FiniteIntRange] };

const SOME_SORTS: &[Slot] = slots! { Any [Dot, UserSort, ProductSort, FiniteIntRange] };

const ONE_SORT_OR_ENUMERATION: &[Slot] = slots! {
    One [Dot, UserSort, ProductSort, FiniteIntRange, FiniteEnumeration, CyclicEnumeration]
};

const ONE_RANGE: &[Slot] = slots! { One [FiniteIntRange] };

const CONSTANTS: &[Slot] = slots! { Any [FeConstant] };

const ONE_TERM: &[Slot] = slots! {
    One [Variable, UserOperator, DotConstant, FiniteIntRangeConstant, Successor, Predecessor, Tuple, Add, Subtract, All, Empty,
        NumberOf, ScalarProduct, PartitionElementOf]
};

const ONE_GUARD: &[Slot] = slots! {
    One [And, Or, Not, Imply, Equality, Inequality, LessThan, LessThanOrEqual, GreaterThan, GreaterThanOrEqual, BooleanConstant]
};

const ONE_LIST_OF_DECLARATIONS: &[Slot] = slots! { One [Declarations] };

const DECLARED: &[Slot] = slots! { Any [NamedSort] Any [Partition] Any [VariableDecl] };

const SORT_AND_BLOCKS: &[Slot] =
    slots! { One [Dot, UserSort, ProductSort, FiniteIntRange] Any [PartitionElement] };

const MEMBERS: &[Slot] =
    slots! { Any [UserOperator] Any [FiniteIntRangeConstant] Any [DotConstant] };

const ONE_SUBTERM: &[Slot] = slots! { InTurn [TermSubterm] };

const TWO_SUBTERMS: &[Slot] = slots! { InTurn [TermSubterm, TermSubterm] };

const SOME_SUBTERMS: &[Slot] = slots! { OneOrMore [TermSubterm] };

const NUMBER_AND_SUBTERM: &[Slot] = slots! { InTurn [NumberSubterm, TermSubterm] };

const ONE_NUMBER: &[Slot] = slots! { One [NumberConstant] };

const NUMBER_SORT: &[Slot] = slots! { AtMostOne [Positive, Natural] };

const ONE_GUARD_PART: &[Slot] = slots! { InTurn [GuardSubterm] };

const TWO_GUARD_PARTS: &[Slot] = slots! { InTurn [GuardSubterm, GuardSubterm] };

const SOME_GUARD_PARTS: &[Slot] = slots! { OneOrMore [GuardSubterm] };

/// What the elements of a role hold in a net of this kind.
pub fn slots_of(kind: Kind, role: Role) -> &'static [Slot]
    ensures { map slot_view result.now ≡ slots_of kind role }
{
    match role {
        Role::Pnml => ROOT,
        Role::Net | Role::Page => nodes_of(kind),
        Role::Place => place_labels(kind),
        Role::Transition => transition_labels(kind),
        Role::Arc => arc_labels(kind),
        Role::InitialMarking | Role::Inscription => ONE_TEXT,
        Role::PlaceType => ONE_SORT_STRUCTURE,
        Role::HlInitialMarking | Role::HlInscription => ONE_TERM_STRUCTURE,
        Role::Condition => ONE_GUARD_STRUCTURE,
        Role::Declaration => ONE_DECLARATION_STRUCTURE,
        Role::SortStructure | Role::VariableDecl | Role::All | Role::Empty => ONE_SORT,
        Role::TermStructure | Role::TermSubterm => ONE_TERM,
        Role::GuardStructure | Role::GuardSubterm => ONE_GUARD,
        Role::DeclarationStructure => ONE_LIST_OF_DECLARATIONS,
        Role::Declarations => DECLARED,
        Role::NamedSort => ONE_SORT_OR_ENUMERATION,
        Role::Partition => SORT_AND_BLOCKS,
        Role::PartitionElement => MEMBERS,
        Role::FiniteEnumeration | Role::CyclicEnumeration => CONSTANTS,
        Role::ProductSort => SOME_SORTS,
        Role::FiniteIntRangeConstant => ONE_RANGE,
        Role::Successor | Role::Predecessor | Role::PartitionElementOf => ONE_SUBTERM,
        Role::Tuple | Role::Add => SOME_SUBTERMS,
        Role::Subtract
        | Role::Equality
        | Role::Inequality
        | Role::LessThan
        | Role::LessThanOrEqual
        | Role::GreaterThan
        | Role::GreaterThanOrEqual => TWO_SUBTERMS,
        Role::NumberOf | Role::ScalarProduct => NUMBER_AND_SUBTERM,
        Role::NumberConstant => NUMBER_SORT,
        Role::NumberSubterm => ONE_NUMBER,
        Role::And | Role::Or => SOME_GUARD_PARTS,
        Role::Not => ONE_GUARD_PART,
        Role::Imply => TWO_GUARD_PARTS,
        _ => NOTHING,
    }
}

fn nodes_of(kind: Kind) -> &'static [Slot]
    ensures { map slot_view result.now ≡ nodes_of kind }
{
    match kind {
        Kind::Pt => PT_NODES,
        Kind::Symmetric => NODES,
    }
}

fn place_labels(kind: Kind) -> &'static [Slot]
    ensures { map slot_view result.now ≡ place_labels kind }
{
    match kind {
        Kind::Pt => PT_PLACE_LABELS,
        Kind::Symmetric => PLACE_LABELS,
    }
}

fn transition_labels(kind: Kind) -> &'static [Slot]
    ensures { map slot_view result.now ≡ transition_labels kind }
{
    match kind {
        Kind::Pt => NOTHING,
        Kind::Symmetric => TRANSITION_LABELS,
    }
}

fn arc_labels(kind: Kind) -> &'static [Slot]
    ensures { map slot_view result.now ≡ arc_labels kind }
{
    match kind {
        Kind::Pt => PT_ARC_LABELS,
        Kind::Symmetric => ARC_LABELS,
    }
}
