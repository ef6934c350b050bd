ghost use Rattle.std.specs.Prelude.{◌≡◌, IfOk, map};
ghost use Rattle.mcc_model.specs.Goals.{child, given, node_of, written};
ghost use Rattle.doc_model.specs.declared.tree.Element.{out-Element};
ghost use Rattle.mcc_formula.specs.Layouts.{nodes_of};

use crate::table::part_named;
use doc_model::Element;
use mcc_model::{Count, Part};
use name_tables::{Ids, read_number};
use net_elements::trimmed;
use pt_net::Layout;
use sqlite_items::Items;
use std::alloc::Global;
use wide_sums::Memory;

/// What is read as a number.
const COUNT_PARTS: &[Part] = &[Part::TokensCount, Part::IntegerConstant];

/// The number that a text writes, and 0 where it writes none.
fn written(text: &[u8]) -> u64
    ensures { result ≡ written text.now }
{
    match read_number(trimmed(text), false) {
        Some(number) => number.unsigned_abs(),
        None => 0,
    }
}

/// The number of the node whose id a text is, and 0 where there is none.
fn node_of(names: &Ids, text: &[u8]) -> u32
    ensures { result ≡ node_of names.now text.now }
{
    names.find(trimmed(text)).unwrap_or(0)
}

/// The numbers of the nodes whose ids the texts of some elements are.
pub fn nodes_in(alloc: Global, names: &Ids, children: &[Element]) -> Result<Items<u32>, Memory>
    ensures { IfOk result (λ nodes. nodes ≡ map (λ e. node_of names.now (out-Element e).text) children.now) }
{
    let mut nodes = Vec::with_capacity(alloc, children.len())?;
    for child in children {
        nodes.push(node_of(names, child.text.bytes()))?;
    }
    Ok(Items::from_vec(nodes))
}

/// What an element is as a number.
pub fn count_of(alloc: Global, layout: &Layout, element: &Element) -> Result<Count, Memory>
    ensures { IfOk result (λ count. count ≡ (given (nodes_of layout.now) element.now).count) }
{
    match part_named(COUNT_PARTS, element.name.bytes()) {
        Some(Part::TokensCount) => {
            let places = nodes_in(alloc, layout.places(), element.children.as_slice())?;
            Ok(Count::Tokens(places))
        }
        Some(Part::IntegerConstant) => Ok(Count::Number(written(element.text.bytes()))),
        _ => Ok(Count::Number(0)),
    }
}

/// The number that the child of this place in the list is.
pub fn count_in(
    alloc: Global,
    layout: &Layout,
    children: &[Element],
    at: usize,
) -> Result<Count, Memory>
    ensures { IfOk result (λ count. count ≡ (child at (map (given (nodes_of layout.now)) children.now)).count) }
{
    match children.get(at) {
        Some(child) => count_of(alloc, layout, child),
        None => Ok(Count::Number(0)),
    }
}
