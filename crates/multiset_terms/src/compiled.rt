ghost use Rattle.std.specs.Prelude.{◌≡◌, ◌+◌, ◌*◌, ◌<◌, ◌≤◌, ◌^◌, ℕ, List, length, Some, IfOk, OnOk, true, false, slice_get, Bool};
ghost use Rattle.colour_sorts.specs.declared.sorts.Sort.{Sort as AnySort};
ghost use Rattle.colour_sorts.specs.Domain.{domain_of};
ghost use Rattle.net_model.specs.declared.terms.Term.{Term as AnyTerm};
ghost use Rattle.net_model.specs.declared.terms.Guard.{Guard as AnyGuard};
ghost use Rattle.multiset_terms.specs.Context.{Context};
ghost use Rattle.multiset_terms.specs.Conditions.{condition_uses_at};
ghost use Rattle.multiset_terms.specs.Marked.{AreMarked, AreNamesMarked};
ghost use Rattle.multiset_terms.specs.Rows.{total};
ghost use Rattle.multiset_terms.specs.Standing.{AddsDen, Binds, CanBeAdded, CanBeEvaluated, CanBeJudged, GuardStandsFor, IsDen, StandsFor, compiled_parts, occurs, occurs_in_guard, parts_of};
ghost use Rattle.multiset_terms.specs.declared.kinds.Kind.{Kind};
ghost use Rattle.multiset_terms.specs.Typing.{is_block as is_block_kind, sort_of_kind, type_of};
ghost use Rattle.multiset_terms.specs.Values.{Binding, is_defined, truth};
ghost use Rattle.multiset_terms.specs.Weights.{gross_of, support_of};
ghost use Rattle.multiset_terms.specs.Trees.{uses_at};
ghost use Rattle.multiset_terms.specs.declared.faults.EvalFault.TheVariants as fault;

use crate::buffers::{Scale, row_of};
use crate::conditions::{CGuard, condition_uses, is_true};
use crate::faults::EvalFault;
use crate::marks::{mark_condition, mark_tree};
use crate::trees::{Tree, tree_uses};
use crate::values::{add_value, cells_of};
use colour_sorts::{Domains, Sort};
use std::alloc::Global;
use wide_sums::{Cell, Row};

/// A term that is well-typed and not too heavy, over colour indices. Contracts say which written term it stands for.
#[derive(Debug, Drop)]
pub struct CTerm {
    pub(crate) tree: Tree,
    pub(crate) sort: Sort,
    pub(crate) block: bool,
    pub(crate) gross: u64,
    pub(crate) support: u64,
}

/// The multiset of a term that is no block, over the colour indices of its sort, under a binding with one colour index per
/// declared variable. `Negative` comes exactly where the term has no value, since more is subtracted than there is.
pub fn eval(
    alloc: Global,
    _domains: &Domains,
    term: &CTerm,
    binding: &[u32],
) -> Result<Row, EvalFault>
    requires { CanBeEvaluated term.now binding.now }
    ensures value { (ctx : Context) (marking : Bool) (t : AnyTerm) (b : Binding) → StandsFor ctx marking t term.now → Binds ctx b binding.now → IfOk result (λ row. IsDen ctx term.now.sort t b row) }
    ensures negative { (ctx : Context) (marking : Bool) (t : AnyTerm) (b : Binding) → StandsFor ctx marking t term.now → Binds ctx b binding.now → result ≡ Err EvalFault.Negative → is_defined ctx t b ≡ false }
{
    let cells = match cells_of(alloc, &term.tree, binding) {
        Ok(cells) => cells,
        Err(fault) => return Err(fault),
    };
    Ok(row_of(alloc, cells.as_slice())?)
}

/// Appends the cells of the multiset of a term that is no block: each count `scale.times` times, at its colour index behind
/// `scale.offset`. A place may then have several cells; `merge` makes a row of them.
///
/// Memory is taken for the cells; for the cells of the two terms of a difference; and, for a tuple with an `all` among its components, for
/// one row after another, one for each component. After a fault the cells that were appended mean nothing.
pub fn eval_into(
    alloc: Global,
    term: &CTerm,
    binding: &[u32],
    scale: Scale,
    cells: &mut Vec<Cell>,
) -> Result<(), EvalFault>
    requires { CanBeAdded term.now binding.now scale }
    ensures value { (ctx : Context) (marking : Bool) (t : AnyTerm) (b : Binding) → StandsFor ctx marking t term.now → Binds ctx b binding.now → OnOk result (AddsDen ctx term.now.sort t b scale cells.old.items cells.new.items) }
    ensures elements { (ctx : Context) (marking : Bool) (t : AnyTerm) (b : Binding) → StandsFor ctx marking t term.now → Binds ctx b binding.now → OnOk result (total cells.new.items ≤ total cells.old.items + scale.times * gross_of ctx t) }
    ensures negative { (ctx : Context) (marking : Bool) (t : AnyTerm) (b : Binding) → StandsFor ctx marking t term.now → Binds ctx b binding.now → result ≡ Err EvalFault.Negative → is_defined ctx t b ≡ false }
{
    add_value(alloc, &term.tree, binding, scale, cells)
}

/// Whether a guard is true under a binding with one colour index per declared variable. It takes no memory.
pub fn holds(domains: &Domains, guard: &CGuard, binding: &[u32]) -> bool
    requires { CanBeJudged domains.now guard.now binding.now }
    ensures { (ctx : Context) (g : AnyGuard) (b : Binding) → domains.now ≡ domain_of ctx.sorts ctx.partitions → GuardStandsFor ctx g guard.now → Binds ctx b binding.now → result ≡ truth ctx g b }
{
    is_true(domains, guard, binding)
}

/// The sort of the type of a term that is no block.
pub fn sort_of(term: &CTerm) -> &Sort
    ensures { (ctx : Context) (marking : Bool) (t : AnyTerm) (kind : Kind) → StandsFor ctx marking t term.now → type_of ctx marking t ≡ Ok kind → is_block_kind kind ≡ false → result.now ≡ sort_of_kind kind }
{
    &term.sort
}

/// Whether the type of a term is a block of a partition.
pub fn is_block(term: &CTerm) -> bool
    ensures { (ctx : Context) (marking : Bool) (t : AnyTerm) (kind : Kind) → StandsFor ctx marking t term.now → type_of ctx marking t ≡ Ok kind → result ≡ is_block_kind kind }
{
    term.block
}

/// The gross total of a term: how many elements it stands for at most.
pub fn gross(term: &CTerm) -> u64
    ensures is { result ≡ term.now.gross }
    ensures gross { (ctx : Context) (marking : Bool) (t : AnyTerm) → StandsFor ctx marking t term.now → result ≡ gross_of ctx t }
{
    term.gross
}

/// The support of a term: at how many colours it has elements at most. What is greater than 2^63 is told as 2^63.
pub fn support(term: &CTerm) -> u64
    ensures is { result ≡ term.now.support }
    ensures support { (ctx : Context) (marking : Bool) (t : AnyTerm) → StandsFor ctx marking t term.now → result ≡ support_of ctx t }
{
    term.support
}

/// Whether the variable of this number occurs in a term. It takes no memory.
pub fn uses(term: &CTerm, variable: u32) -> bool
    ensures { (ctx : Context) (marking : Bool) (t : AnyTerm) (id : List ℕ) → StandsFor ctx marking t term.now → slice_get ctx.variables.ids variable ≡ Some id → result ≡ occurs id t }
{
    tree_uses(&term.tree, variable)
}

/// Whether the variable of this number occurs in a guard. It takes no memory.
pub fn guard_uses(guard: &CGuard, variable: u32) -> bool
    ensures { (ctx : Context) (g : AnyGuard) (id : List ℕ) → GuardStandsFor ctx g guard.now → slice_get ctx.variables.ids variable ≡ Some id → result ≡ occurs_in_guard id g }
{
    condition_uses(guard, variable)
}

/// Marks the variables that occur in a term, by their numbers, in one pass; what is marked stays so. It takes no memory.
///
/// There may be fewer marks than variables: a variable without a mark is passed over.
pub fn mark_uses(term: &CTerm, marks: &mut [bool])
    ensures marks { AreMarked (λ v. uses_at v term.now.tree) marks.old marks.new }
    ensures names { (ctx : Context) (marking : Bool) (t : AnyTerm) → StandsFor ctx marking t term.now → AreNamesMarked ctx.variables.ids (λ id. occurs id t) marks.old marks.new }
{
    mark_tree(&term.tree, marks);
}

/// Marks the variables that occur in a guard, by their numbers, in one pass; what is marked stays so. It takes no memory.
///
/// There may be fewer marks than variables: a variable without a mark is passed over.
pub fn mark_guard_uses(guard: &CGuard, marks: &mut [bool])
    ensures marks { AreMarked (λ v. condition_uses_at v guard.now) marks.old marks.new }
    ensures names { (ctx : Context) (g : AnyGuard) → GuardStandsFor ctx g guard.now → AreNamesMarked ctx.variables.ids (λ id. occurs_in_guard id g) marks.old marks.new }
{
    mark_condition(guard, marks);
}

/// How many there are, as far as 32 bits can tell. No guard that is compiled has more.
fn count_of(parts: &[CGuard]) -> u32
    ensures { length parts.now < 2 ^ 32 → result ≡ length parts.now }
{
    if parts.len() < u32::MAX as usize {
        parts.len() as u32
    } else {
        u32::MAX
    }
}

/// How many parts a guard has: the children of an `and`, of any other guard itself alone. It is true where all its parts are.
pub fn part_count(guard: &CGuard) -> u32
    ensures written { (ctx : Context) (g : AnyGuard) → GuardStandsFor ctx g guard.now → result ≡ length (parts_of g) }
    ensures compiled { (ctx : Context) (g : AnyGuard) → GuardStandsFor ctx g guard.now → result ≡ length (compiled_parts guard.now) }
{
    match guard {
        CGuard::And(parts) => count_of(parts.as_slice()),
        _ => 1,
    }
}

/// A part of a guard, by its position, which is below the count of its parts.
pub fn part(guard: &CGuard, at: u32) -> &CGuard
    requires { at < length (compiled_parts guard.now) }
    ensures { (ctx : Context) (g : AnyGuard) (h : AnyGuard) → GuardStandsFor ctx g guard.now → slice_get (parts_of g) at ≡ Some h → GuardStandsFor ctx h result.now }
{
    match guard {
        CGuard::And(parts) => &parts.as_slice()[at as usize],
        _ => guard,
    }
}
