ghost use Rattle.std.specs.Prelude.{◌≡◌, IfOk, Some, map};
ghost use Rattle.net_elements.specs.declared.roles.Role.TheVariants as role;
ghost use Rattle.doc_model.specs.declared.tree.Element.{out-Element};
ghost use Rattle.pnml_read.specs.Nets.{child, given, kept, sort_part};

use crate::values::{name_in, span_in};
use doc_model::Element;
use name_tables::Name;
use net_elements::{Role, is_passed_over, role_named};
use net_model::SortTerm;
use sqlite_items::Items;
use std::alloc::Global;
use wide_sums::Memory;

/// What is read as a sort: a sort, an enumeration, and what leads to a sort.
const SORT_ROLES: &[Role] = &[
    Role::Dot,
    Role::UserSort,
    Role::ProductSort,
    Role::FiniteIntRange,
    Role::FiniteEnumeration,
    Role::CyclicEnumeration,
    Role::PlaceType,
    Role::SortStructure,
];

/// What an element is as a sort.
#[cycle(sorts)]
pub fn sort_of(alloc: Global, element: &Element) -> Result<SortTerm, Memory>
    ensures { IfOk result (λ sort. sort ≡ (given element.now).sort) }
{
    match role_named(SORT_ROLES, element.name.bytes()) {
        Some(role) => sort_as(alloc, role, element),
        None => Ok(SortTerm::Dot),
    }
}

/// What an element of a role is as a sort.
#[cycle(sorts)]
fn sort_as(alloc: Global, role: Role, element: &Element) -> Result<SortTerm, Memory>
    ensures { IfOk result (λ sort. sort ≡ sort_part (Some role) (out-Element element.now).attributes (map given (out-Element element.now).children)) }
{
    let attributes = element.attributes.as_slice();
    let children = element.children.as_slice();
    match role {
        Role::UserSort => Ok(SortTerm::Named(name_in(alloc, b"declaration", attributes)?)),
        Role::ProductSort => Ok(SortTerm::Product(sorts_in(alloc, children)?)),
        Role::FiniteIntRange => Ok(SortTerm::Range(span_in(attributes))),
        Role::FiniteEnumeration => Ok(SortTerm::Listed(constants_in(alloc, role, children)?)),
        Role::CyclicEnumeration => Ok(SortTerm::Cyclic(constants_in(alloc, role, children)?)),
        Role::PlaceType | Role::SortStructure => sort_in(alloc, role, children),
        _ => Ok(SortTerm::Dot),
    }
}

/// The sort of the first child that is not passed over.
#[cycle(sorts)]
pub fn sort_in(alloc: Global, role: Role, children: &[Element]) -> Result<SortTerm, Memory>
    ensures { IfOk result (λ sort. sort ≡ (child role 0 (map given children.now)).sort) }
{
    for element in children {
        if !is_passed_over(role, element.name.bytes()) {
            return sort_of(alloc, element);
        }
    }
    Ok(SortTerm::Dot)
}

#[cycle(sorts)]
fn sorts_in(alloc: Global, children: &[Element]) -> Result<Items<SortTerm>, Memory>
    ensures { IfOk result (λ sorts. sorts ≡ map (λ c. c.sort) (kept role.ProductSort (map given children.now))) }
{
    let mut sorts = Items::new(alloc);
    for element in children {
        if !is_passed_over(Role::ProductSort, element.name.bytes()) {
            sorts.push(sort_of(alloc, element)?)?;
        }
    }
    Ok(sorts)
}

/// The ids of the constants of an enumeration.
fn constants_in(alloc: Global, role: Role, children: &[Element]) -> Result<Items<Name>, Memory>
    ensures { IfOk result (λ ids. ids ≡ map (λ c. c.id) (kept role (map given children.now))) }
{
    let mut ids = Items::new(alloc);
    for element in children {
        if !is_passed_over(role, element.name.bytes()) {
            ids.push(name_in(alloc, b"id", element.attributes.as_slice())?)?;
        }
    }
    Ok(ids)
}
