ghost use Rattle.std.specs.Prelude.{nat_eq};
ghost use Rattle.multiset_terms.specs.Conditions.{block_uses_at, condition_uses_at, some_condition_uses};
ghost use Rattle.multiset_terms.specs.Marked.{AreMarked};
ghost use Rattle.multiset_terms.specs.Trees.{some_use, uses_at};

use crate::conditions::{BlockTree, CGuard};
use crate::trees::Tree;

/// Marks a number, where there is a mark for it.
fn mark(number: u32, marks: &mut [bool])
    ensures { AreMarked (λ v. nat_eq number v) marks.old marks.new }
{
    let at = number as usize;
    if at < marks.len() {
        marks[at] = true;
    }
}

/// Marks the numbers of the variables that occur in a term.
#[cycle(marking)]
pub fn mark_tree(tree: &Tree, marks: &mut [bool])
    ensures { AreMarked (λ v. uses_at v tree.now) marks.old marks.new }
{
    match tree {
        Tree::Variable(_, number) => mark(*number, marks),
        Tree::Next(_, child) => mark_tree(child.get(), marks),
        Tree::Before(_, child) => mark_tree(child.get(), marks),
        Tree::Tuple(_, parts) => mark_trees(parts.as_slice(), marks),
        Tree::Product(_, parts) => mark_trees(parts.as_slice(), marks),
        Tree::Times(_, child) => mark_tree(child.get(), marks),
        Tree::Sum(_, parts) => mark_trees(parts.as_slice(), marks),
        Tree::Minus(whole, part) => {
            mark_tree(whole.get(), marks);
            mark_tree(part.get(), marks);
        }
        _ => {}
    }
}

#[cycle(marking)]
fn mark_trees(trees: &[Tree], marks: &mut [bool])
    ensures { AreMarked (λ v. some_use v trees.now) marks.old marks.new }
{
    for tree in trees {
        mark_tree(tree, marks);
    }
}

fn mark_block(block: &BlockTree, marks: &mut [bool])
    ensures { AreMarked (λ v. block_uses_at v block.now) marks.old marks.new }
{
    match block {
        BlockTree::Element(_) => {}
        BlockTree::With(tree) => mark_tree(tree, marks),
    }
}

/// Marks the numbers of the variables that occur in a guard.
#[cycle(marking_guards)]
pub fn mark_condition(condition: &CGuard, marks: &mut [bool])
    ensures { AreMarked (λ v. condition_uses_at v condition.now) marks.old marks.new }
{
    match condition {
        CGuard::Constant(_) => {}
        CGuard::And(parts) => mark_conditions(parts.as_slice(), marks),
        CGuard::Or(parts) => mark_conditions(parts.as_slice(), marks),
        CGuard::Not(part) => mark_condition(part.get(), marks),
        CGuard::Imply(first, second) => {
            mark_condition(first.get(), marks);
            mark_condition(second.get(), marks);
        }
        CGuard::Compare(_, first, second) => {
            mark_tree(first, marks);
            mark_tree(second, marks);
        }
        CGuard::CompareBlocks(_, _, first, second) => {
            mark_block(first, marks);
            mark_block(second, marks);
        }
    }
}

#[cycle(marking_guards)]
fn mark_conditions(conditions: &[CGuard], marks: &mut [bool])
    ensures { AreMarked (λ v. some_condition_uses v conditions.now) marks.old marks.new }
{
    for condition in conditions {
        mark_condition(condition, marks);
    }
}
