ghost use Rattle.std.specs.Prelude.{◌≡◌, ◌<◌, ◌≤◌, ◌^◌, ℕ, List, true};
ghost use Rattle.colour_sorts.specs.Places.{before_of, next_of};
ghost use Rattle.multiset_terms.specs.Trees.{reading, are_colours, tuple_place, tuple_size, readings, some_use, uses_at};

use sqlite_items::{Boxed, Items};

/// A typed term over colour indices. The first number of a variant, where it has one that is not a child, is the number of
/// colours of its sort.
#[derive(Debug, Drop)]
pub enum Tree {
    /// The colour of the variable of this number.
    Variable(u32, u32),
    /// The colour of this index.
    Constant(u32, u32),
    /// The colour behind that of the child, the first one behind the last.
    Next(u32, Boxed<Tree>),
    /// The colour before that of the child, the last one before the first.
    Before(u32, Boxed<Tree>),
    /// The tuple of the children's colours.
    Tuple(u32, Items<Tree>),
    /// Every tuple of the choices of the children, each a colour or all colours of a sort.
    Product(u32, Items<Tree>),
    /// Each colour once.
    All(u32),
    /// No colour.
    Empty(u32),
    /// So many times the child.
    Times(u64, Boxed<Tree>),
    /// The sum of the children.
    Sum(u32, Items<Tree>),
    /// The first child without the second.
    Minus(Boxed<Tree>, Boxed<Tree>),
}

/// The number of colours of the sort of a colour or of all colours.
pub fn size_of(tree: &Tree) -> u32
    ensures { (binding : List ℕ) → (reading binding tree.now).is_choice ≡ true → result ≡ (reading binding tree.now).size }
{
    match tree {
        Tree::Variable(size, _) => *size,
        Tree::Constant(size, _) => *size,
        Tree::Next(size, _) => *size,
        Tree::Before(size, _) => *size,
        Tree::Tuple(size, _) => *size,
        Tree::All(size) => *size,
        _ => 0,
    }
}

/// Whether a term is a colour.
pub fn is_colour(tree: &Tree) -> bool
    ensures { (binding : List ℕ) → result ≡ (reading binding tree.now).is_colour }
{
    match tree {
        Tree::Variable(_, _) => true,
        Tree::Constant(_, _) => true,
        Tree::Next(_, _) => true,
        Tree::Before(_, _) => true,
        Tree::Tuple(_, _) => true,
        Tree::Product(_, _) => false,
        Tree::All(_) => false,
        Tree::Empty(_) => false,
        Tree::Times(_, _) => false,
        Tree::Sum(_, _) => false,
        Tree::Minus(_, _) => false,
    }
}

fn index_behind(index: u32, size: u32) -> u32
    requires { index < size }
    ensures index { result ≡ next_of size index }
    ensures within { result < size }
{
    if index + 1 == size { 0 } else { index + 1 }
}

fn index_before(index: u32, size: u32) -> u32
    requires { index < size }
    ensures index { result ≡ before_of size index }
    ensures within { result < size }
{
    if index == 0 { size - 1 } else { index - 1 }
}

/// The index of a term that is a colour.
#[cycle(placing)]
pub fn place(tree: &Tree, binding: &[u32]) -> u32
    requires sound { (reading binding.now tree.now).is_sound ≡ true }
    requires colour { (reading binding.now tree.now).is_colour ≡ true }
    ensures place { result ≡ (reading binding.now tree.now).place }
    ensures within { result < (reading binding.now tree.now).size }
{
    match tree {
        Tree::Variable(_, number) => binding[*number as usize],
        Tree::Constant(_, index) => *index,
        Tree::Next(size, child) => { index_behind(place(child.get(), binding), *size) }
        Tree::Before(size, child) => { index_before(place(child.get(), binding), *size) }
        Tree::Tuple(_, parts) => place_of_tuple(parts.as_slice(), binding),
        _ => 0,
    }
}

/// The index of the tuple of some colours, the first being the most significant.
#[cycle(placing)]
fn place_of_tuple(parts: &[Tree], binding: &[u32]) -> u32
    requires sound { are_colours (readings binding.now parts.now) ≡ true }
    requires fits { tuple_size (readings binding.now parts.now) ≤ 2 ^ 20 }
    ensures place { result ≡ tuple_place 0 (readings binding.now parts.now) }
    ensures within { result < tuple_size (readings binding.now parts.now) }
{
    let mut at = 0;
    for part in parts {
        at = at * size_of(part) + place(part, binding);
    }
    at
}

/// Whether the variable of this number occurs in a term.
#[cycle(looking)]
pub fn tree_uses(tree: &Tree, variable: u32) -> bool
    ensures { result ≡ uses_at variable tree.now }
{
    match tree {
        Tree::Variable(_, number) => *number == variable,
        Tree::Next(_, child) => tree_uses(child.get(), variable),
        Tree::Before(_, child) => tree_uses(child.get(), variable),
        Tree::Tuple(_, parts) => any_uses(parts.as_slice(), variable),
        Tree::Product(_, parts) => any_uses(parts.as_slice(), variable),
        Tree::Times(_, child) => tree_uses(child.get(), variable),
        Tree::Sum(_, parts) => any_uses(parts.as_slice(), variable),
        Tree::Minus(whole, part) => {
            if tree_uses(whole.get(), variable) {
                true
            } else {
                tree_uses(part.get(), variable)
            }
        }
        _ => false,
    }
}

#[cycle(looking)]
fn any_uses(parts: &[Tree], variable: u32) -> bool
    ensures { result ≡ some_use variable parts.now }
{
    for part in parts {
        if tree_uses(part, variable) {
            return true;
        }
    }
    false
}
