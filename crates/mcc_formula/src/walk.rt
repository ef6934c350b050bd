ghost use Rattle.std.specs.Prelude.{◌≡◌, Err, length, map};
ghost use Rattle.mcc_model.specs.declared.faults.FormulaFault.TheVariants.{NotReachability};
ghost use Rattle.doc_model.specs.declared.tree.Element.{out-Element};
ghost use Rattle.mcc_model.specs.Goals.{children_faults, end_faults, goal_faults, id_faults, number_faults, text_faults, walk_of};
ghost use Rattle.mcc_formula.specs.Layouts.{nodes_of};
ghost use Rattle.mcc_formula.specs.Walking.{Finds};

use crate::table::{fewest, part_of_child};
use doc_model::Element;
use mcc_model::{FormulaFault, Part};
use name_tables::{Ids, is_id, read_number};
use net_elements::trimmed;
use pt_net::Layout;

fn not_reachability(at: u64) -> Result<(), FormulaFault>
    ensures { result ≡ Err (NotReachability at) }
{
    Err(FormulaFault::NotReachability { at })
}

/// Walks over the formula of a property, up to the first fault.
pub fn check(layout: &Layout, formula: &Element) -> Result<(), FormulaFault>
    ensures { Finds result (goal_faults (nodes_of layout.now) formula.now) }
{
    element(layout, Part::Whole, formula)
}

#[cycle(walking)]
fn element(layout: &Layout, part: Part, element: &Element) -> Result<(), FormulaFault>
    ensures { Finds result ((walk_of (nodes_of layout.now) element.now).faults part) }
{
    children(layout, part, element.children.as_slice())?;
    end(layout, part, element)
}

#[cycle(walking)]
fn children(layout: &Layout, part: Part, children: &[Element]) -> Result<(), FormulaFault>
    ensures { Finds result (children_faults part 0 (map (walk_of (nodes_of layout.now)) children.now)) }
{
    for (at, child) in children.iter().enumerate() {
        match part_of_child(part, at, child.name.bytes()) {
            Some(part) => element(layout, part, child)?,
            None => return not_reachability(child.at),
        }
    }
    Ok(())
}

/// What is wrong with an element behind its children.
fn end(layout: &Layout, part: Part, element: &Element) -> Result<(), FormulaFault>
    ensures { Finds result (end_faults (nodes_of layout.now) part (out-Element element.now).at (length (out-Element element.now).children) (out-Element element.now).text) }
{
    if element.children.len() < fewest(part) {
        return not_reachability(element.at);
    }
    text(layout, part, element.at, trimmed(element.text.bytes()))
}

fn text(layout: &Layout, part: Part, at: u64, text: &[u8]) -> Result<(), FormulaFault>
    ensures { Finds result (text_faults (nodes_of layout.now) part at text.now) }
{
    match part {
        Part::Place => node(layout.places(), at, text),
        Part::Transition => node(layout.transitions(), at, text),
        Part::IntegerConstant => number(at, text),
        _ => Ok(()),
    }
}

fn node(names: &Ids, at: u64, id: &[u8]) -> Result<(), FormulaFault>
    ensures { Finds result (id_faults names.now at id.now) }
{
    if !is_id(id) {
        return not_reachability(at);
    }
    if names.find(id).is_none() {
        return Err(FormulaFault::UnknownNode { at });
    }
    Ok(())
}

fn number(at: u64, text: &[u8]) -> Result<(), FormulaFault>
    ensures { Finds result (number_faults at text.now) }
{
    if read_number(text, false).is_none() {
        return not_reachability(at);
    }
    Ok(())
}
