ghost use Rattle.std.specs.Prelude.{◌≡◌, [], IfErr, IfOk, OnOk};
ghost use Rattle.mcc_model.specs.Faults.{IsFirstFault};
ghost use Rattle.mcc_model.specs.Goals.{goal_faults, goal_of, is_universal};
ghost use Rattle.mcc_formula.specs.Layouts.{nodes_of};

use crate::formulas::formula_of;
use crate::walk::check;
use doc_model::Element;
use mcc_model::{FormulaFault, Goal, Property};
use pt_net::Layout;
use std::alloc::Global;

fn is_universal(children: &[Element]) -> bool
    ensures { result ≡ is_universal children.now }
{
    match children.first() {
        Some(child) => child.name.bytes() == b"all-paths".as_slice(),
        None => false,
    }
}

/// The goal that a property is, over the numbers of places and transitions in this layout. `NotReachability` is answered exactly
/// where the first fault of the walk over its formula is an element that may not stand where it stands, that lacks a child, or
/// whose text is to be an id or a number and is none; and `UnknownNode` where it is an id that no place, or no transition, has.
/// `Memory` comes for want of memory.
pub fn resolve(alloc: Global, property: &Property, layout: &Layout) -> Result<Goal, FormulaFault>
    ensures goal { IfOk result (λ goal. goal ≡ goal_of (nodes_of layout.now) property.now.formula) }
    ensures sound { OnOk result (goal_faults (nodes_of layout.now) property.now.formula ≡ []) }
    ensures first { IfErr result (λ fault. IsFirstFault (goal_faults (nodes_of layout.now) property.now.formula) fault) }
{
    check(layout, &property.formula)?;
    Ok(Goal {
        universal: is_universal(property.formula.children.as_slice()),
        formula: formula_of(alloc, layout, &property.formula)?,
    })
}
