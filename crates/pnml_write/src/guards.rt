ghost use Rattle.std.specs.Prelude.{◌≡◌, ◌∷◌, [], IfOk, map};
ghost use Rattle.net_elements.specs.declared.roles.Role.TheVariants as role;
ghost use Rattle.pnml_write.specs.Canon.{branch, guard_part_tree, guard_tree, order_role, part, truth_text};
ghost use Rattle.pnml_write.specs.Canon.{term_tree as tree_of_term};

use crate::elements::{around, around_two, holder, leaf_with, one_attribute};
use crate::terms::part_tree;
use doc_model::Element;
use net_elements::Role;
use net_model::{Guard, Order, Term};
use sqlite_items::Items;
use std::alloc::Global;
use wide_sums::Memory;

/// The tree of a guard.
#[cycle(guards)]
pub fn guard_tree(alloc: Global, guard: &Guard) -> Result<Element, Memory>
    ensures { IfOk result (λ tree. tree ≡ guard_tree guard.now) }
{
    match guard {
        Guard::Constant(truth) => leaf_with(
            alloc,
            Role::BooleanConstant,
            one_attribute(alloc, b"value", truth_text(*truth))?,
        ),
        Guard::And(parts) => around_parts(alloc, Role::And, parts.as_slice()),
        Guard::Or(parts) => around_parts(alloc, Role::Or, parts.as_slice()),
        Guard::Not(child) => around(alloc, Role::Not, guard_part_tree(alloc, child.get())?),
        Guard::Imply(premise, consequence) => {
            let first = guard_part_tree(alloc, premise.get())?;
            let second = guard_part_tree(alloc, consequence.get())?;
            around_two(alloc, Role::Imply, first, second)
        }
        Guard::Compare(order, first, second) => comparison(alloc, *order, first, second),
    }
}

#[cycle(guards)]
fn guard_part_tree(alloc: Global, guard: &Guard) -> Result<Element, Memory>
    ensures { IfOk result (λ tree. tree ≡ guard_part_tree (guard_tree guard.now)) }
{
    around(alloc, Role::GuardSubterm, guard_tree(alloc, guard)?)
}

#[cycle(guards)]
fn around_parts(alloc: Global, role: Role, guards: &[Guard]) -> Result<Element, Memory>
    ensures { IfOk result (λ tree. tree ≡ branch role [] (map (λ g. guard_part_tree (guard_tree g)) guards.now)) }
{
    let mut trees = Items::new(alloc);
    for guard in guards {
        trees.push(guard_part_tree(alloc, guard)?)?;
    }
    holder(alloc, role, trees)
}

fn comparison(alloc: Global, order: Order, first: &Term, second: &Term) -> Result<Element, Memory>
    ensures { IfOk result (λ tree. tree ≡ branch (order_role order) [] (part (tree_of_term first.now) ∷ part (tree_of_term second.now) ∷ [])) }
{
    let left = part_tree(alloc, first)?;
    let right = part_tree(alloc, second)?;
    around_two(alloc, order_role(order), left, right)
}

fn order_role(order: Order) -> Role
    ensures { result ≡ order_role order }
{
    match order {
        Order::Equal => Role::Equality,
        Order::Unequal => Role::Inequality,
        Order::Less => Role::LessThan,
        Order::LessEqual => Role::LessThanOrEqual,
        Order::Greater => Role::GreaterThan,
        Order::GreaterEqual => Role::GreaterThanOrEqual,
    }
}

fn truth_text(truth: bool) -> &'static [u8]
    ensures { result.now ≡ truth_text truth }
{
    if truth { b"true" } else { b"false" }
}
