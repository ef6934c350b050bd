ghost use Rattle.std.specs.Prelude.{◌≡◌, true};
ghost use Rattle.multiset_terms.specs.Conditions.{all_true, any_true, are_fit, block_at, block_uses_at, compares, compares_blocks, condition_uses_at, is_block_fit, some_condition_uses, verdict, verdicts};

use crate::trees::{Tree, place, tree_uses};
use colour_sorts::Domains;
use net_model::Order;
use sqlite_items::{Boxed, Items};

/// A block of a partition, over colour indices.
#[derive(Debug, Drop)]
pub enum BlockTree {
    /// The block at this position.
    Element(u32),
    /// The block that has a colour.
    With(Tree),
}

/// A guard that is well-typed, over colour indices. Contracts say which written guard it stands for.
#[derive(Debug, Drop)]
pub enum CGuard {
    /// True or false.
    Constant(bool),
    /// All of the children.
    And(Items<CGuard>),
    /// Some of the children.
    Or(Items<CGuard>),
    /// Not the child.
    Not(Boxed<CGuard>),
    /// Where the first child is true, the second.
    Imply(Boxed<CGuard>, Boxed<CGuard>),
    /// A comparison of two colours by their indices.
    Compare(Order, Tree, Tree),
    /// Whether two blocks of the partition at this position are the same, or where the first is false, whether they aren't.
    CompareBlocks(bool, u32, BlockTree, BlockTree),
}

fn compare(order: Order, first: u32, second: u32) -> bool
    ensures { result ≡ compares order first second }
{
    match order {
        Order::Equal => first == second,
        Order::Unequal => first != second,
        Order::Less => first < second,
        Order::LessEqual => first <= second,
        Order::Greater => second < first,
        Order::GreaterEqual => second <= first,
    }
}

fn compare_blocks(same: bool, first: u32, second: u32) -> bool
    ensures { result ≡ compares_blocks same first second }
{
    if same {
        first == second
    } else {
        first != second
    }
}

/// The position of a block in its partition.
fn block_place(domains: &Domains, partition: u32, block: &BlockTree, binding: &[u32]) -> u32
    requires { is_block_fit domains.now partition binding.now block.now ≡ true }
    ensures { result ≡ block_at domains.now partition binding.now block.now }
{
    match block {
        BlockTree::Element(position) => *position,
        BlockTree::With(tree) => domains.block_of(partition, place(tree, binding)),
    }
}

/// Whether a guard is true under a binding. It takes no memory.
#[cycle(judging)]
pub fn is_true(domains: &Domains, condition: &CGuard, binding: &[u32]) -> bool
    requires { (verdict domains.now binding.now condition.now).is_fit ≡ true }
    ensures { result ≡ (verdict domains.now binding.now condition.now).is_true }
{
    match condition {
        CGuard::Constant(value) => *value,
        CGuard::And(parts) => are_true(domains, parts.as_slice(), binding),
        CGuard::Or(parts) => is_any_true(domains, parts.as_slice(), binding),
        CGuard::Not(part) => !is_true(domains, part.get(), binding),
        CGuard::Imply(first, second) => {
            !is_true(domains, first.get(), binding) || is_true(domains, second.get(), binding)
        }
        CGuard::Compare(order, first, second) => {
            compare(*order, place(first, binding), place(second, binding))
        }
        CGuard::CompareBlocks(same, partition, first, second) => compare_blocks(
            *same,
            block_place(domains, *partition, first, binding),
            block_place(domains, *partition, second, binding),
        ),
    }
}

#[cycle(judging)]
fn are_true(domains: &Domains, parts: &[CGuard], binding: &[u32]) -> bool
    requires { are_fit (verdicts domains.now binding.now parts.now) ≡ true }
    ensures { result ≡ all_true (verdicts domains.now binding.now parts.now) }
{
    for part in parts {
        if !is_true(domains, part, binding) {
            return false;
        }
    }
    true
}

#[cycle(judging)]
fn is_any_true(domains: &Domains, parts: &[CGuard], binding: &[u32]) -> bool
    requires { are_fit (verdicts domains.now binding.now parts.now) ≡ true }
    ensures { result ≡ any_true (verdicts domains.now binding.now parts.now) }
{
    for part in parts {
        if is_true(domains, part, binding) {
            return true;
        }
    }
    false
}

/// Whether the variable of this number occurs in a block.
fn block_uses(block: &BlockTree, variable: u32) -> bool
    ensures { result ≡ block_uses_at variable block.now }
{
    match block {
        BlockTree::Element(_) => false,
        BlockTree::With(tree) => tree_uses(tree, variable),
    }
}

/// Whether the variable of this number occurs in a guard.
#[cycle(looking)]
pub fn condition_uses(condition: &CGuard, variable: u32) -> bool
    ensures { result ≡ condition_uses_at variable condition.now }
{
    match condition {
        CGuard::Constant(_) => false,
        CGuard::And(parts) => any_uses(parts.as_slice(), variable),
        CGuard::Or(parts) => any_uses(parts.as_slice(), variable),
        CGuard::Not(part) => condition_uses(part.get(), variable),
        CGuard::Imply(first, second) => {
            if condition_uses(first.get(), variable) {
                true
            } else {
                condition_uses(second.get(), variable)
            }
        }
        CGuard::Compare(_, first, second) => {
            if tree_uses(first, variable) {
                true
            } else {
                tree_uses(second, variable)
            }
        }
        CGuard::CompareBlocks(_, _, first, second) => {
            if block_uses(first, variable) {
                true
            } else {
                block_uses(second, variable)
            }
        }
    }
}

#[cycle(looking)]
fn any_uses(parts: &[CGuard], variable: u32) -> bool
    ensures { result ≡ some_condition_uses variable parts.now }
{
    for part in parts {
        if condition_uses(part, variable) {
            return true;
        }
    }
    false
}
