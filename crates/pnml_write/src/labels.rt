ghost use Rattle.std.specs.Prelude.{◌≡◌, ◌++◌, IfOk, OnOk};
ghost use Rattle.net_elements.specs.declared.roles.Role.TheVariants as role;
ghost use Rattle.pnml_write.specs.Canon.{condition_trees, label_trees, term_label, text_label, type_trees};

use crate::elements::{around, bare};
use crate::guards::guard_tree;
use crate::sorts::sort_tree;
use crate::terms::term_tree;
use doc_model::Element;
use name_tables::decimal;
use net_elements::Role;
use net_model::{Guard, Kind, Label, SortTerm, Term};
use sqlite_items::Items;
use std::alloc::Global;
use wide_sums::Memory;

/// Adds the sort of a place, which a place/transition net doesn't write.
pub fn add_type(
    alloc: Global,
    trees: &mut Items<Element>,
    kind: Kind,
    sort: &SortTerm,
) -> Result<(), Memory>
    ensures { OnOk result (trees.new ≡ trees.old ++ type_trees kind sort.now) }
{
    match kind {
        Kind::Pt => {}
        Kind::Symmetric => {
            let structure = around(alloc, Role::SortStructure, sort_tree(alloc, sort)?)?;
            trees.push(around(alloc, Role::PlaceType, structure)?)?;
        }
    }
    Ok(())
}

/// Adds the marking of a place, 0 being left out.
pub fn add_marking(alloc: Global, trees: &mut Items<Element>, label: &Label) -> Result<(), Memory>
    ensures { OnOk result (trees.new ≡ trees.old ++ label_trees 0 role.InitialMarking role.HlInitialMarking label.now) }
{
    match label {
        Label::Absent => {}
        Label::Count(count) => {
            if *count != 0 {
                trees.push(number_label(alloc, Role::InitialMarking, *count)?)?;
            }
        }
        Label::Multiset(term) => trees.push(term_label(alloc, Role::HlInitialMarking, term)?)?,
    }
    Ok(())
}

/// Adds the inscription of an arc, 1 being left out.
pub fn add_inscription(
    alloc: Global,
    trees: &mut Items<Element>,
    label: &Label,
) -> Result<(), Memory>
    ensures { OnOk result (trees.new ≡ trees.old ++ label_trees 1 role.Inscription role.HlInscription label.now) }
{
    match label {
        Label::Absent => {}
        Label::Count(count) => {
            if *count != 1 {
                trees.push(number_label(alloc, Role::Inscription, *count)?)?;
            }
        }
        Label::Multiset(term) => trees.push(term_label(alloc, Role::HlInscription, term)?)?,
    }
    Ok(())
}

fn number_label(alloc: Global, role: Role, number: u64) -> Result<Element, Memory>
    ensures { IfOk result (λ tree. tree ≡ text_label role number) }
{
    let mut text = bare(alloc, Role::Text)?;
    text.text = decimal(alloc, number as i128)?;
    around(alloc, role, text)
}

fn term_label(alloc: Global, role: Role, term: &Term) -> Result<Element, Memory>
    ensures { IfOk result (λ tree. tree ≡ term_label role term.now) }
{
    let structure = around(alloc, Role::TermStructure, term_tree(alloc, term)?)?;
    around(alloc, role, structure)
}

/// Adds the guard of a transition.
pub fn add_condition(
    alloc: Global,
    trees: &mut Items<Element>,
    guard: &Option<Guard>,
) -> Result<(), Memory>
    ensures { OnOk result (trees.new ≡ trees.old ++ condition_trees guard.now) }
{
    if let Some(guard) = guard {
        let structure = around(alloc, Role::GuardStructure, guard_tree(alloc, guard)?)?;
        trees.push(around(alloc, Role::Condition, structure)?)?;
    }
    Ok(())
}
