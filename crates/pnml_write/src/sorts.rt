ghost use Rattle.std.specs.Prelude.{◌≡◌, IfOk, map};
ghost use Rattle.net_elements.specs.declared.roles.Role.TheVariants as role;
ghost use Rattle.pnml_write.specs.Canon.{branch, constant_tree, range_tree, sort_tree};

use crate::elements::{
    add_attribute, bare, declared_id, holder, leaf_with, number_attribute, one_attribute,
};
use doc_model::Element;
use name_tables::{Name, decimal};
use net_elements::Role;
use net_model::{SortTerm, Span};
use sqlite_items::Items;
use std::alloc::Global;
use wide_sums::Memory;

/// The tree of a sort.
#[cycle(sorts)]
pub fn sort_tree(alloc: Global, sort: &SortTerm) -> Result<Element, Memory>
    ensures { IfOk result (λ tree. tree ≡ sort_tree sort.now) }
{
    match sort {
        SortTerm::Dot => bare(alloc, Role::Dot),
        SortTerm::Named(id) => leaf_with(
            alloc,
            Role::UserSort,
            one_attribute(alloc, b"declaration", id.bytes())?,
        ),
        SortTerm::Product(parts) => {
            let trees = sort_trees(alloc, parts.as_slice())?;
            holder(alloc, Role::ProductSort, trees)
        }
        SortTerm::Range(span) => range_tree(alloc, *span),
        SortTerm::Listed(ids) => {
            let trees = constant_trees(alloc, ids.as_slice())?;
            holder(alloc, Role::FiniteEnumeration, trees)
        }
        SortTerm::Cyclic(ids) => {
            let trees = constant_trees(alloc, ids.as_slice())?;
            holder(alloc, Role::CyclicEnumeration, trees)
        }
    }
}

#[cycle(sorts)]
fn sort_trees(alloc: Global, sorts: &[SortTerm]) -> Result<Items<Element>, Memory>
    ensures { IfOk result (λ trees. trees ≡ map sort_tree sorts.now) }
{
    let mut trees = Items::new(alloc);
    for sort in sorts {
        trees.push(sort_tree(alloc, sort)?)?;
    }
    Ok(trees)
}

/// The tree of a range.
pub fn range_tree(alloc: Global, span: Span) -> Result<Element, Memory>
    ensures { IfOk result (λ tree. tree ≡ range_tree span) }
{
    let mut attributes = number_attribute(alloc, b"start", span.first as i128)?;
    let last = decimal(alloc, span.last as i128)?;
    add_attribute(alloc, &mut attributes, b"end", last.bytes())?;
    leaf_with(alloc, Role::FiniteIntRange, attributes)
}

fn constant_trees(alloc: Global, ids: &[Name]) -> Result<Items<Element>, Memory>
    ensures { IfOk result (λ trees. trees ≡ map constant_tree ids.now) }
{
    let mut trees = Items::new(alloc);
    for id in ids {
        let attributes = declared_id(alloc, id.bytes())?;
        trees.push(leaf_with(alloc, Role::FeConstant, attributes)?)?;
    }
    Ok(trees)
}
