ghost use Rattle.std.specs.Prelude.{◌≡◌, IfOk, Some, map};
ghost use Rattle.mcc_model.specs.declared.parts.Part.TheVariants as part;
ghost use Rattle.mcc_model.specs.Goals.{child, formula_part, given};
ghost use Rattle.doc_model.specs.declared.tree.Element.{out-Element};
ghost use Rattle.mcc_formula.specs.Layouts.{nodes_of};

use crate::numbers::{count_in, nodes_in};
use crate::table::part_named;
use doc_model::Element;
use mcc_model::{Formula, Part};
use pt_net::Layout;
use sqlite_items::{Boxed, Items};
use std::alloc::Global;
use wide_sums::Memory;

/// What is read as a formula: a formula, and what leads to one.
const FORMULA_PARTS: &[Part] = &[
    Part::Negation,
    Part::Conjunction,
    Part::Disjunction,
    Part::IntegerLe,
    Part::IsFireable,
    Part::Whole,
    Part::AllPaths,
    Part::ExistsPath,
    Part::Globally,
    Part::Finally,
];

/// What an element is as a formula.
#[cycle(formulas)]
pub fn formula_of(alloc: Global, layout: &Layout, element: &Element) -> Result<Formula, Memory>
    ensures { IfOk result (λ formula. formula ≡ (given (nodes_of layout.now) element.now).formula) }
{
    match part_named(FORMULA_PARTS, element.name.bytes()) {
        Some(part) => formula_as(alloc, layout, part, element.children.as_slice()),
        None => Ok(Formula::And(Items::new(alloc))),
    }
}

/// What an element of a part with these children is as a formula.
#[cycle(formulas)]
fn formula_as(
    alloc: Global,
    layout: &Layout,
    part: Part,
    children: &[Element],
) -> Result<Formula, Memory>
    ensures { IfOk result (λ formula. formula ≡ formula_part (nodes_of layout.now) (Some part) (map (given (nodes_of layout.now)) children.now)) }
{
    match part {
        Part::Negation => negation(alloc, layout, children),
        Part::Conjunction => Ok(Formula::And(formulas_in(alloc, layout, children)?)),
        Part::Disjunction => Ok(Formula::Or(formulas_in(alloc, layout, children)?)),
        Part::IntegerLe => at_most(alloc, layout, children),
        Part::IsFireable => fireable(alloc, layout, children),
        Part::Whole | Part::AllPaths | Part::ExistsPath | Part::Globally | Part::Finally =>
            formula_in(alloc, layout, children),
        _ => Ok(Formula::And(Items::new(alloc))),
    }
}

#[cycle(formulas)]
fn negation(alloc: Global, layout: &Layout, children: &[Element]) -> Result<Formula, Memory>
    ensures { IfOk result (λ formula. formula ≡ formula_part (nodes_of layout.now) (Some part.Negation) (map (given (nodes_of layout.now)) children.now)) }
{
    let formula = formula_in(alloc, layout, children)?;
    Ok(Formula::Not(Boxed::new(alloc, formula)?))
}

fn at_most(alloc: Global, layout: &Layout, children: &[Element]) -> Result<Formula, Memory>
    ensures { IfOk result (λ formula. formula ≡ formula_part (nodes_of layout.now) (Some part.IntegerLe) (map (given (nodes_of layout.now)) children.now)) }
{
    let first = count_in(alloc, layout, children, 0)?;
    let second = count_in(alloc, layout, children, 1)?;
    Ok(Formula::AtMost(first, second))
}

fn fireable(alloc: Global, layout: &Layout, children: &[Element]) -> Result<Formula, Memory>
    ensures { IfOk result (λ formula. formula ≡ formula_part (nodes_of layout.now) (Some part.IsFireable) (map (given (nodes_of layout.now)) children.now)) }
{
    Ok(Formula::Fireable(nodes_in(alloc, layout.transitions(), children)?))
}

/// The formula that the first child is.
#[cycle(formulas)]
fn formula_in(alloc: Global, layout: &Layout, children: &[Element]) -> Result<Formula, Memory>
    ensures { IfOk result (λ formula. formula ≡ (child 0 (map (given (nodes_of layout.now)) children.now)).formula) }
{
    match children.first() {
        Some(child) => formula_of(alloc, layout, child),
        None => Ok(Formula::And(Items::new(alloc))),
    }
}

#[cycle(formulas)]
fn formulas_in(
    alloc: Global,
    layout: &Layout,
    children: &[Element],
) -> Result<Items<Formula>, Memory>
    ensures { IfOk result (λ formulas. formulas ≡ map (λ c. c.formula) (map (given (nodes_of layout.now)) children.now)) }
{
    let mut formulas = Items::new(alloc);
    for child in children {
        formulas.push(formula_of(alloc, layout, child)?)?;
    }
    Ok(formulas)
}
