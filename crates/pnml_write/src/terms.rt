ghost use Rattle.std.specs.Prelude.{◌≡◌, ◌∷◌, [], IfOk, map};
ghost use Rattle.net_elements.specs.declared.roles.Role.TheVariants as role;
ghost use Rattle.pnml_write.specs.Canon.{branch, number_tree, operator_tree, part, range_constant_tree, term_tree};

use crate::elements::{
    around, around_two, bare, branch, holder, leaf_with, number_attribute, one_attribute, only,
};
use crate::sorts::{range_tree, sort_tree};
use doc_model::Element;
use net_elements::Role;
use net_model::{Span, Term};
use sqlite_items::Items;
use std::alloc::Global;
use wide_sums::Memory;

/// The tree of a term.
#[cycle(terms)]
pub fn term_tree(alloc: Global, term: &Term) -> Result<Element, Memory>
    ensures { IfOk result (λ tree. tree ≡ term_tree term.now) }
{
    match term {
        Term::Variable(id) => leaf_with(
            alloc,
            Role::Variable,
            one_attribute(alloc, b"refvariable", id.bytes())?,
        ),
        Term::Operator(id) => operator_tree(alloc, id.bytes()),
        Term::Dot => bare(alloc, Role::DotConstant),
        Term::Number { value, span } => range_constant_tree(alloc, *value, *span),
        Term::Successor(child) => around_part(alloc, Role::Successor, child.get()),
        Term::Predecessor(child) => around_part(alloc, Role::Predecessor, child.get()),
        Term::Tuple(parts) => around_parts(alloc, Role::Tuple, parts.as_slice()),
        Term::All(sort) => around(alloc, Role::All, sort_tree(alloc, sort)?),
        Term::Empty(sort) => around(alloc, Role::Empty, sort_tree(alloc, sort)?),
        Term::NumberOf(count, child) => multiple(alloc, Role::NumberOf, *count, child.get()),
        Term::Scalar(count, child) => multiple(alloc, Role::ScalarProduct, *count, child.get()),
        Term::Add(parts) => around_parts(alloc, Role::Add, parts.as_slice()),
        Term::Subtract(whole, part) => {
            let first = part_tree(alloc, whole.get())?;
            let second = part_tree(alloc, part.get())?;
            around_two(alloc, Role::Subtract, first, second)
        }
        Term::BlockOf(id, child) => {
            let attributes = one_attribute(alloc, b"refpartition", id.bytes())?;
            let part = part_tree(alloc, child.get())?;
            branch(
                alloc,
                Role::PartitionElementOf,
                attributes,
                only(alloc, part)?,
            )
        }
    }
}

/// The tree of a term as a part of another.
#[cycle(terms)]
pub fn part_tree(alloc: Global, term: &Term) -> Result<Element, Memory>
    ensures { IfOk result (λ tree. tree ≡ part (term_tree term.now)) }
{
    around(alloc, Role::TermSubterm, term_tree(alloc, term)?)
}

#[cycle(terms)]
fn around_part(alloc: Global, role: Role, term: &Term) -> Result<Element, Memory>
    ensures { IfOk result (λ tree. tree ≡ branch role [] (part (term_tree term.now) ∷ [])) }
{
    around(alloc, role, part_tree(alloc, term)?)
}

#[cycle(terms)]
fn around_parts(alloc: Global, role: Role, terms: &[Term]) -> Result<Element, Memory>
    ensures { IfOk result (λ tree. tree ≡ branch role [] (map (λ t. part (term_tree t)) terms.now)) }
{
    let mut trees = Items::new(alloc);
    for term in terms {
        trees.push(part_tree(alloc, term)?)?;
    }
    holder(alloc, role, trees)
}

#[cycle(terms)]
fn multiple(alloc: Global, role: Role, count: u64, term: &Term) -> Result<Element, Memory>
    ensures { IfOk result (λ tree. tree ≡ branch role [] (number_tree count ∷ part (term_tree term.now) ∷ [])) }
{
    let number = number_tree(alloc, count)?;
    around_two(alloc, role, number, part_tree(alloc, term)?)
}

fn number_tree(alloc: Global, number: u64) -> Result<Element, Memory>
    ensures { IfOk result (λ tree. tree ≡ number_tree number) }
{
    let attributes = number_attribute(alloc, b"value", number as i128)?;
    let sort = only(alloc, bare(alloc, Role::Natural)?)?;
    let constant = branch(alloc, Role::NumberConstant, attributes, sort)?;
    around(alloc, Role::NumberSubterm, constant)
}

/// The tree of a constant or a block, by its id.
pub fn operator_tree(alloc: Global, id: &[u8]) -> Result<Element, Memory>
    ensures { IfOk result (λ tree. tree ≡ operator_tree id.now) }
{
    leaf_with(
        alloc,
        Role::UserOperator,
        one_attribute(alloc, b"declaration", id)?,
    )
}

/// The tree of a number of a range.
pub fn range_constant_tree(alloc: Global, value: i64, span: Span) -> Result<Element, Memory>
    ensures { IfOk result (λ tree. tree ≡ range_constant_tree value span) }
{
    let attributes = number_attribute(alloc, b"value", value as i128)?;
    let range = only(alloc, range_tree(alloc, span)?)?;
    branch(alloc, Role::FiniteIntRangeConstant, attributes, range)
}
