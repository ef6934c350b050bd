ghost use Rattle.std.specs.Prelude.{◌≡◌, [], IfOk, Some, map};
ghost use Rattle.doc_model.specs.declared.tree.Element.{out-Element};
ghost use Rattle.net_elements.specs.declared.roles.Role.TheVariants as role;
ghost use Rattle.pnml_read.specs.Nets.{child, compare, given, guard_part, kept};

use crate::terms::term_in;
use crate::values::truth_in;
use doc_model::Element;
use net_elements::{Role, is_passed_over, role_named};
use net_model::{Guard, Order};
use sqlite_items::{Boxed, Items};
use std::alloc::Global;
use wide_sums::Memory;

/// What is read as a guard: a guard, and what leads to one.
const GUARD_ROLES: &[Role] = &[
    Role::And,
    Role::Or,
    Role::Not,
    Role::Imply,
    Role::Equality,
    Role::Inequality,
    Role::LessThan,
    Role::LessThanOrEqual,
    Role::GreaterThan,
    Role::GreaterThanOrEqual,
    Role::BooleanConstant,
    Role::Condition,
    Role::GuardStructure,
    Role::GuardSubterm,
];

/// What an element is as a guard.
#[cycle(guards)]
pub fn guard_of(alloc: Global, element: &Element) -> Result<Guard, Memory>
    ensures { IfOk result (λ guard. guard ≡ (given element.now).guard) }
{
    match role_named(GUARD_ROLES, element.name.bytes()) {
        Some(role) => guard_as(alloc, role, element),
        None => Ok(Guard::Constant(false)),
    }
}

/// What an element of a role is as a guard.
#[cycle(guards)]
fn guard_as(alloc: Global, role: Role, element: &Element) -> Result<Guard, Memory>
    ensures { IfOk result (λ guard. guard ≡ guard_part (Some role) (out-Element element.now).attributes (map given (out-Element element.now).children)) }
{
    let children = element.children.as_slice();
    match role {
        Role::And => Ok(Guard::And(guards_in(alloc, role, children)?)),
        Role::Or => Ok(Guard::Or(guards_in(alloc, role, children)?)),
        Role::Not => Ok(Guard::Not(boxed_in(alloc, role, children, 0)?)),
        Role::Imply => implication(alloc, children),
        Role::Equality => comparison(alloc, role, Order::Equal, children),
        Role::Inequality => comparison(alloc, role, Order::Unequal, children),
        Role::LessThan => comparison(alloc, role, Order::Less, children),
        Role::LessThanOrEqual => comparison(alloc, role, Order::LessEqual, children),
        Role::GreaterThan => comparison(alloc, role, Order::Greater, children),
        Role::GreaterThanOrEqual => comparison(alloc, role, Order::GreaterEqual, children),
        Role::BooleanConstant => Ok(Guard::Constant(truth_in(element.attributes.as_slice()))),
        Role::Condition | Role::GuardStructure | Role::GuardSubterm => {
            guard_in(alloc, role, children, 0)
        }
        _ => Ok(Guard::Constant(false)),
    }
}

#[cycle(guards)]
fn implication(alloc: Global, children: &[Element]) -> Result<Guard, Memory>
    ensures { IfOk result (λ guard. guard ≡ guard_part (Some role.Imply) [] (map given children.now)) }
{
    let premise = boxed_in(alloc, Role::Imply, children, 0)?;
    let consequence = boxed_in(alloc, Role::Imply, children, 1)?;
    Ok(Guard::Imply(premise, consequence))
}

fn comparison(
    alloc: Global,
    role: Role,
    order: Order,
    children: &[Element],
) -> Result<Guard, Memory>
    ensures { IfOk result (λ guard. guard ≡ compare role order (map given children.now)) }
{
    let first = term_in(alloc, role, children, 0)?;
    let second = term_in(alloc, role, children, 1)?;
    Ok(Guard::Compare(order, first, second))
}

/// The guard of the child of this number among those that are not passed over.
#[cycle(guards)]
pub fn guard_in(
    alloc: Global,
    role: Role,
    children: &[Element],
    number: usize,
) -> Result<Guard, Memory>
    ensures { IfOk result (λ guard. guard ≡ (child role number (map given children.now)).guard) }
{
    let mut before = number;
    for element in children {
        if is_passed_over(role, element.name.bytes()) {
            continue;
        }
        if before == 0 {
            return guard_of(alloc, element);
        }
        before -= 1;
    }
    Ok(Guard::Constant(false))
}

#[cycle(guards)]
fn boxed_in(
    alloc: Global,
    role: Role,
    children: &[Element],
    number: usize,
) -> Result<Boxed<Guard>, Memory>
    ensures { IfOk result (λ guard. guard ≡ (child role number (map given children.now)).guard) }
{
    let guard = guard_in(alloc, role, children, number)?;
    Ok(Boxed::new(alloc, guard)?)
}

#[cycle(guards)]
fn guards_in(alloc: Global, role: Role, children: &[Element]) -> Result<Items<Guard>, Memory>
    ensures { IfOk result (λ guards. guards ≡ map (λ c. c.guard) (kept role (map given children.now))) }
{
    let mut guards = Items::new(alloc);
    for element in children {
        if !is_passed_over(role, element.name.bytes()) {
            guards.push(guard_of(alloc, element)?)?;
        }
    }
    Ok(guards)
}
