ghost use Rattle.std.specs.Prelude.{◌≡◌, [], IfOk, Some, map};
ghost use Rattle.doc_model.specs.declared.tree.Element.{out-Element};
ghost use Rattle.net_elements.specs.declared.roles.Role.TheVariants as role;
ghost use Rattle.pnml_read.specs.Nets.{child, given, kept, number_part, term_part};

use crate::sorts::sort_in;
use crate::values::{bytes_in, name_in, signed, span_in, unsigned};
use doc_model::Element;
use net_elements::{Role, is_passed_over, role_named, trimmed};
use net_model::{Span, Term};
use sqlite_items::{Boxed, Items};
use std::alloc::Global;
use wide_sums::Memory;

/// What is read as a number: those of attributes, and those in the text of a marking or a weight.
const NUMBER_ROLES: &[Role] = &[
    Role::NumberSubterm,
    Role::NumberConstant,
    Role::InitialMarking,
    Role::Inscription,
    Role::Text,
];

/// What is read as a term: a term, and what leads to one.
const TERM_ROLES: &[Role] = &[
    Role::Variable,
    Role::UserOperator,
    Role::DotConstant,
    Role::FiniteIntRangeConstant,
    Role::Successor,
    Role::Predecessor,
    Role::Tuple,
    Role::Add,
    Role::Subtract,
    Role::All,
    Role::Empty,
    Role::NumberOf,
    Role::ScalarProduct,
    Role::PartitionElementOf,
    Role::HlInitialMarking,
    Role::HlInscription,
    Role::TermStructure,
    Role::TermSubterm,
];

/// The number that an element has.
#[cycle(numbers)]
pub fn number_of(element: &Element) -> u64
    ensures { result ≡ (given element.now).number }
{
    match role_named(NUMBER_ROLES, element.name.bytes()) {
        Some(role) => number_as(role, element),
        None => 0,
    }
}

/// The number that an element of a role has.
#[cycle(numbers)]
fn number_as(role: Role, element: &Element) -> u64
    ensures { result ≡ number_part (Some role) (out-Element element.now).attributes (map given (out-Element element.now).children) (out-Element element.now).text }
{
    match role {
        Role::NumberSubterm | Role::InitialMarking | Role::Inscription => {
            number_in(role, element.children.as_slice())
        }
        Role::NumberConstant => unsigned(bytes_in(b"value", element.attributes.as_slice())),
        Role::Text => unsigned(trimmed(element.text.bytes())),
        _ => 0,
    }
}

/// The number of the first child that is not passed over.
#[cycle(numbers)]
pub fn number_in(role: Role, children: &[Element]) -> u64
    ensures { result ≡ (child role 0 (map given children.now)).number }
{
    for element in children {
        if !is_passed_over(role, element.name.bytes()) {
            return number_of(element);
        }
    }
    0
}

/// The range of a number.
pub fn range_in(children: &[Element]) -> Span
    ensures { result ≡ (child role.FiniteIntRangeConstant 0 (map given children.now)).span }
{
    for element in children {
        if !is_passed_over(Role::FiniteIntRangeConstant, element.name.bytes()) {
            return span_in(element.attributes.as_slice());
        }
    }
    Span { first: 0, last: 0 }
}

/// What an element is as a term.
#[cycle(terms)]
pub fn term_of(alloc: Global, element: &Element) -> Result<Term, Memory>
    ensures { IfOk result (λ term. term ≡ (given element.now).term) }
{
    match role_named(TERM_ROLES, element.name.bytes()) {
        Some(role) => term_as(alloc, role, element),
        None => Ok(Term::Dot),
    }
}

/// What an element of a role is as a term.
#[cycle(terms)]
fn term_as(alloc: Global, role: Role, element: &Element) -> Result<Term, Memory>
    ensures { IfOk result (λ term. term ≡ term_part (Some role) (out-Element element.now).attributes (map given (out-Element element.now).children)) }
{
    let attributes = element.attributes.as_slice();
    let children = element.children.as_slice();
    match role {
        Role::Variable => Ok(Term::Variable(name_in(alloc, b"refvariable", attributes)?)),
        Role::UserOperator => Ok(Term::Operator(name_in(alloc, b"declaration", attributes)?)),
        Role::FiniteIntRangeConstant => Ok(Term::Number {
            value: signed(bytes_in(b"value", attributes)),
            span: range_in(children),
        }),
        Role::Successor => Ok(Term::Successor(boxed_in(alloc, role, children, 0)?)),
        Role::Predecessor => Ok(Term::Predecessor(boxed_in(alloc, role, children, 0)?)),
        Role::Tuple => Ok(Term::Tuple(terms_in(alloc, role, children)?)),
        Role::Add => Ok(Term::Add(terms_in(alloc, role, children)?)),
        Role::Subtract => difference(alloc, children),
        Role::All => Ok(Term::All(sort_in(alloc, role, children)?)),
        Role::Empty => Ok(Term::Empty(sort_in(alloc, role, children)?)),
        Role::NumberOf => {
            let term = boxed_in(alloc, role, children, 1)?;
            Ok(Term::NumberOf(number_in(role, children), term))
        }
        Role::ScalarProduct => {
            let term = boxed_in(alloc, role, children, 1)?;
            Ok(Term::Scalar(number_in(role, children), term))
        }
        Role::PartitionElementOf => {
            let partition = name_in(alloc, b"refpartition", attributes)?;
            Ok(Term::BlockOf(partition, boxed_in(alloc, role, children, 0)?))
        }
        Role::HlInitialMarking | Role::HlInscription | Role::TermStructure | Role::TermSubterm =>
            term_in(alloc, role, children, 0),
        _ => Ok(Term::Dot),
    }
}

#[cycle(terms)]
fn difference(alloc: Global, children: &[Element]) -> Result<Term, Memory>
    ensures { IfOk result (λ term. term ≡ term_part (Some role.Subtract) [] (map given children.now)) }
{
    let whole = boxed_in(alloc, Role::Subtract, children, 0)?;
    let part = boxed_in(alloc, Role::Subtract, children, 1)?;
    Ok(Term::Subtract(whole, part))
}

/// The term of the child of this number among those that are not passed over.
#[cycle(terms)]
pub fn term_in(
    alloc: Global,
    role: Role,
    children: &[Element],
    number: usize,
) -> Result<Term, Memory>
    ensures { IfOk result (λ term. term ≡ (child role number (map given children.now)).term) }
{
    let mut before = number;
    for element in children {
        if is_passed_over(role, element.name.bytes()) {
            continue;
        }
        if before == 0 {
            return term_of(alloc, element);
        }
        before -= 1;
    }
    Ok(Term::Dot)
}

#[cycle(terms)]
fn boxed_in(
    alloc: Global,
    role: Role,
    children: &[Element],
    number: usize,
) -> Result<Boxed<Term>, Memory>
    ensures { IfOk result (λ term. term ≡ (child role number (map given children.now)).term) }
{
    let term = term_in(alloc, role, children, number)?;
    Ok(Boxed::new(alloc, term)?)
}

#[cycle(terms)]
fn terms_in(alloc: Global, role: Role, children: &[Element]) -> Result<Items<Term>, Memory>
    ensures { IfOk result (λ terms. terms ≡ map (λ c. c.term) (kept role (map given children.now))) }
{
    let mut terms = Items::new(alloc);
    for element in children {
        if !is_passed_over(role, element.name.bytes()) {
            terms.push(term_of(alloc, element)?)?;
        }
    }
    Ok(terms)
}
