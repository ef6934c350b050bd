ghost use Rattle.std.specs.Prelude.{◌≡◌};
ghost use Rattle.net_elements.specs.Table.{word_of, key_word_of};

/// How an element is read: each row of the table of elements, and where the place of an element decides what it holds, a
/// role for each such place.
#[derive(Clone, Copy, Debug, PartialEq, Eq)]
pub enum Role {
    /// `pnml`. The root.
    Pnml,
    /// `net`. The net.
    Net,
    /// `page`. A page of nodes.
    Page,
    /// `place`. A place.
    Place,
    /// `transition`. A transition.
    Transition,
    /// `arc`. An arc.
    Arc,
    /// `referencePlace`. A node that stands for a place.
    ReferencePlace,
    /// `referenceTransition`. A node that stands for a transition.
    ReferenceTransition,
    /// `initialMarking`. The marking of a place of a place/transition net.
    InitialMarking,
    /// `inscription`. The weight of an arc of a place/transition net.
    Inscription,
    /// `text`. The number of a marking or of a weight.
    Text,
    /// `type`. The sort of a place.
    PlaceType,
    /// `hlinitialMarking`. The marking of a place of a symmetric net.
    HlInitialMarking,
    /// `hlinscription`. The inscription of an arc of a symmetric net.
    HlInscription,
    /// `condition`. The guard of a transition.
    Condition,
    /// `declaration`. Declarations, as a label of a net or of a page.
    Declaration,
    /// `structure`. What a label holds that gives a sort.
    SortStructure,
    /// `structure`. What a label holds that gives a term.
    TermStructure,
    /// `structure`. What a label holds that gives a guard.
    GuardStructure,
    /// `structure`. What a label holds that gives declarations.
    DeclarationStructure,
    /// `declarations`. A list of declarations.
    Declarations,
    /// `namedsort`. The declaration of a sort.
    NamedSort,
    /// `partition`. The declaration of a partition.
    Partition,
    /// `partitionelement`. A block of a partition.
    PartitionElement,
    /// `variabledecl`. The declaration of a variable.
    VariableDecl,
    /// `finiteenumeration`. The sort of some constants.
    FiniteEnumeration,
    /// `cyclicenumeration`. The sort of some constants that go round.
    CyclicEnumeration,
    /// `feconstant`. The declaration of a constant.
    FeConstant,
    /// `dot`. The sort of the dot.
    Dot,
    /// `usersort`. The name of a sort.
    UserSort,
    /// `productsort`. The sort of tuples.
    ProductSort,
    /// `finiteintrange`. The sort of the numbers of a range.
    FiniteIntRange,
    /// `variable`. A variable.
    Variable,
    /// `useroperator`. The name of a constant or of a block.
    UserOperator,
    /// `dotconstant`. The dot.
    DotConstant,
    /// `finiteintrangeconstant`. A number of a range.
    FiniteIntRangeConstant,
    /// `successor`. The next colour.
    Successor,
    /// `predecessor`. The colour before.
    Predecessor,
    /// `tuple`. A tuple.
    Tuple,
    /// `add`. A sum of multisets.
    Add,
    /// `subtract`. A difference of multisets.
    Subtract,
    /// `all`. Each colour of a sort.
    All,
    /// `empty`. No colour of a sort.
    Empty,
    /// `numberof`. So many times a multiset.
    NumberOf,
    /// `scalarproduct`. So many times a multiset.
    ScalarProduct,
    /// `numberconstant`. A number.
    NumberConstant,
    /// `positive`. What the number is taken from: the numbers from 1.
    Positive,
    /// `natural`. What the number is taken from: the numbers from 0.
    Natural,
    /// `partitionelementof`. The block that has a colour.
    PartitionElementOf,
    /// `and`. All of some guards.
    And,
    /// `or`. Some of some guards.
    Or,
    /// `not`. Not a guard.
    Not,
    /// `imply`. If one guard, then the other.
    Imply,
    /// `equality`. Two colours are the same.
    Equality,
    /// `inequality`. Two colours are not the same.
    Inequality,
    /// `lessthan`. A colour stands before another.
    LessThan,
    /// `lessthanorequal`. A colour stands before another, or is the same.
    LessThanOrEqual,
    /// `greaterthan`. A colour stands behind another.
    GreaterThan,
    /// `greaterthanorequal`. A colour stands behind another, or is the same.
    GreaterThanOrEqual,
    /// `booleanconstant`. True or false.
    BooleanConstant,
    /// `subterm`. A part that is a term.
    TermSubterm,
    /// `subterm`. A part that is a guard.
    GuardSubterm,
    /// `subterm`. A part that is a number.
    NumberSubterm,
}

/// The name of the elements that are read so.
pub fn word_of(role: Role) -> &'static [u8]
    ensures { result.now ≡ word_of role }
{
    match role {
        Role::Pnml => b"pnml",
        Role::Net => b"net",
        Role::Page => b"page",
        Role::Place => b"place",
        Role::Transition => b"transition",
        Role::Arc => b"arc",
        Role::ReferencePlace => b"referencePlace",
        Role::ReferenceTransition => b"referenceTransition",
        Role::InitialMarking => b"initialMarking",
        Role::Inscription => b"inscription",
        Role::Text => b"text",
        Role::PlaceType => b"type",
        Role::HlInitialMarking => b"hlinitialMarking",
        Role::HlInscription => b"hlinscription",
        Role::Condition => b"condition",
        Role::Declaration => b"declaration",
        Role::SortStructure => b"structure",
        Role::TermStructure => b"structure",
        Role::GuardStructure => b"structure",
        Role::DeclarationStructure => b"structure",
        Role::Declarations => b"declarations",
        Role::NamedSort => b"namedsort",
        Role::Partition => b"partition",
        Role::PartitionElement => b"partitionelement",
        Role::VariableDecl => b"variabledecl",
        Role::FiniteEnumeration => b"finiteenumeration",
        Role::CyclicEnumeration => b"cyclicenumeration",
        Role::FeConstant => b"feconstant",
        Role::Dot => b"dot",
        Role::UserSort => b"usersort",
        Role::ProductSort => b"productsort",
        Role::FiniteIntRange => b"finiteintrange",
        Role::Variable => b"variable",
        Role::UserOperator => b"useroperator",
        Role::DotConstant => b"dotconstant",
        Role::FiniteIntRangeConstant => b"finiteintrangeconstant",
        Role::Successor => b"successor",
        Role::Predecessor => b"predecessor",
        Role::Tuple => b"tuple",
        Role::Add => b"add",
        Role::Subtract => b"subtract",
        Role::All => b"all",
        Role::Empty => b"empty",
        Role::NumberOf => b"numberof",
        Role::ScalarProduct => b"scalarproduct",
        Role::NumberConstant => b"numberconstant",
        Role::Positive => b"positive",
        Role::Natural => b"natural",
        Role::PartitionElementOf => b"partitionelementof",
        Role::And => b"and",
        Role::Or => b"or",
        Role::Not => b"not",
        Role::Imply => b"imply",
        Role::Equality => b"equality",
        Role::Inequality => b"inequality",
        Role::LessThan => b"lessthan",
        Role::LessThanOrEqual => b"lessthanorequal",
        Role::GreaterThan => b"greaterthan",
        Role::GreaterThanOrEqual => b"greaterthanorequal",
        Role::BooleanConstant => b"booleanconstant",
        Role::TermSubterm => b"subterm",
        Role::GuardSubterm => b"subterm",
        Role::NumberSubterm => b"subterm",
    }
}

/// An attribute that an element must have, with what it must be.
#[derive(Clone, Copy, Debug, PartialEq, Eq)]
pub enum Key {
    /// `id`. The id of a net or a page, which may be that of another too.
    AnyId,
    /// `id`. The id of a node: a place, a transition, an arc or a reference.
    NodeId,
    /// `id`. The id of a symbol: a sort, a constant, a partition, a block or a variable.
    SymbolId,
    /// `type`. The type of a net.
    NetType,
    /// `source`. The id of the node where an arc begins.
    Source,
    /// `target`. The id of the node where an arc ends.
    Target,
    /// `ref`. The id of the node that a reference stands for.
    Ref,
    /// `declaration`. The id of what is declared elsewhere.
    Operand,
    /// `refvariable`. The id of a variable.
    RefVariable,
    /// `refpartition`. The id of a partition.
    RefPartition,
    /// `start`. The first number of a range.
    Start,
    /// `end`. The last number of a range.
    End,
    /// `value`. A number of a range.
    SignedValue,
    /// `value`. A number from 0.
    CountValue,
    /// `value`. True or false.
    TruthValue,
}

/// The name of the attribute.
pub fn key_word_of(key: Key) -> &'static [u8]
    ensures { result.now ≡ key_word_of key }
{
    match key {
        Key::AnyId => b"id",
        Key::NodeId => b"id",
        Key::SymbolId => b"id",
        Key::NetType => b"type",
        Key::Source => b"source",
        Key::Target => b"target",
        Key::Ref => b"ref",
        Key::Operand => b"declaration",
        Key::RefVariable => b"refvariable",
        Key::RefPartition => b"refpartition",
        Key::Start => b"start",
        Key::End => b"end",
        Key::SignedValue => b"value",
        Key::CountValue => b"value",
        Key::TruthValue => b"value",
    }
}
