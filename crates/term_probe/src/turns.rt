ghost use Rattle.multiset_terms.specs.Standing.{CanBeAdded, CanBeJudged};
ghost use Rattle.multiset_terms.specs.Usable.{IsUsable};

use crate::made;
use colour_sorts::Domains;
use multiset_terms::{
    CGuard, CTerm, Guard, Scale, Term, compile_guard, compile_term, eval_into, holds, is_binding,
    is_block, merge,
};
use std::alloc::Global;
use std::hint::spin_loop;
use term_scopes::Scope;
use wide_sums::Cell;

/// How many cells the value of a term has. They are put into a buffer that is used again.
fn cells_in_turn(
    alloc: Global,
    term: &CTerm,
    indices: &[u32],
    buffer: &mut Vec<Cell>,
) -> Option<u64>
    requires { CanBeAdded term.now indices.now (record { times = 1; offset = 0 }) }
{
    let once = Scale {
        times: 1,
        offset: 0,
    };
    buffer.clear();
    match eval_into(alloc, term, indices, once, buffer) {
        Ok(()) => {
            merge(buffer);
            Some(buffer.len() as u64)
        }
        Err(_) => None,
    }
}

/// How many cells the value of a term has, in so many turns together.
fn cells_in_turns(alloc: Global, term: &CTerm, indices: &[u32], turns: u32) -> Option<u64>
    requires { CanBeAdded term.now indices.now (record { times = 1; offset = 0 }) }
{
    let mut buffer = Vec::new(alloc);
    let mut cells: u64 = 0;
    for _turn in 0..turns {
        cells = cells.saturating_add(cells_in_turn(alloc, term, indices, &mut buffer)?);
    }
    Some(cells)
}

fn cells_at(alloc: Global, scope: &Scope, term: &Term, indices: &[u32], turns: u32) -> Option<u64>
    requires { IsUsable scope.now.domains scope.now.variables }
{
    let compiled = match compile_term(alloc, &scope.domains, &scope.variables, false, term) {
        Ok(compiled) => compiled,
        Err(_) => return None,
    };
    if is_block(&compiled) {
        return None;
    }
    if !is_binding(&scope.domains, &scope.variables, indices) {
        return None;
    }
    cells_in_turns(alloc, &compiled, indices, turns)
}

/// The cells of a term where its variables have rising colours.
fn cells(alloc: Global, scope: &Scope, term: &Term, variables: u32, turns: u32) -> Option<u64>
    requires { IsUsable scope.now.domains scope.now.variables }
{
    match made::indices(alloc, variables) {
        Ok(indices) => cells_at(alloc, scope, term, indices.as_slice(), turns),
        Err(_) => None,
    }
}

/// In how many turns a guard is true, times its comparisons.
///
/// A pause stands between the turns: without it the compiler takes them together, since nothing changes from one to
/// the next.
fn comparisons_in_turns(domains: &Domains, guard: &CGuard, indices: &[u32], turns: u32) -> u64
    requires { CanBeJudged domains.now guard.now indices.now }
{
    let mut made: u64 = 0;
    for _turn in 0..turns {
        if holds(domains, guard, indices) {
            made = made.saturating_add(indices.len() as u64);
        }
        spin_loop();
    }
    made
}

fn comparisons_at(
    alloc: Global,
    scope: &Scope,
    guard: &Guard,
    indices: &[u32],
    turns: u32,
) -> Option<u64>
    requires { IsUsable scope.now.domains scope.now.variables }
{
    let compiled = match compile_guard(alloc, &scope.domains, &scope.variables, guard) {
        Ok(compiled) => compiled,
        Err(_) => return None,
    };
    if !is_binding(&scope.domains, &scope.variables, indices) {
        return None;
    }
    Some(comparisons_in_turns(&scope.domains, &compiled, indices, turns))
}

fn comparisons(
    alloc: Global,
    scope: &Scope,
    guard: &Guard,
    variables: u32,
    turns: u32,
) -> Option<u64>
    requires { IsUsable scope.now.domains scope.now.variables }
{
    match made::indices(alloc, variables) {
        Ok(indices) => comparisons_at(alloc, scope, guard, indices.as_slice(), turns),
        Err(_) => None,
    }
}

fn all_in(alloc: Global, scope: &Scope, turns: u32) -> Option<u64>
    requires { IsUsable scope.now.domains scope.now.variables }
{
    match made::all(alloc) {
        Ok(term) => cells(alloc, scope, &term, 0, turns),
        Err(_) => None,
    }
}

/// All colours of a range.
pub fn all(alloc: Global, count: u32, turns: u32) -> Option<u64> {
    match made::scope(alloc, count, 0) {
        Ok(scope) => all_in(alloc, &scope, turns),
        Err(_) => None,
    }
}

fn sum_in(alloc: Global, scope: &Scope, count: u32, turns: u32) -> Option<u64>
    requires { IsUsable scope.now.domains scope.now.variables }
{
    match made::sum(alloc, count) {
        Ok(term) => cells(alloc, scope, &term, count, turns),
        Err(_) => None,
    }
}

/// A sum of variables.
pub fn sum(alloc: Global, count: u32, turns: u32) -> Option<u64> {
    match made::scope(alloc, count, count) {
        Ok(scope) => sum_in(alloc, &scope, count, turns),
        Err(_) => None,
    }
}

fn pair_in(alloc: Global, scope: &Scope, turns: u32) -> Option<u64>
    requires { IsUsable scope.now.domains scope.now.variables }
{
    match made::pair(alloc) {
        Ok(term) => cells(alloc, scope, &term, 1, turns),
        Err(_) => None,
    }
}

/// The sum of a variable and the colour behind it, over a circle of so many colours.
pub fn pair(alloc: Global, count: u32, turns: u32) -> Option<u64> {
    match made::circle_scope(alloc, count) {
        Ok(scope) => pair_in(alloc, &scope, turns),
        Err(_) => None,
    }
}

fn guard_in(alloc: Global, scope: &Scope, count: u32, turns: u32) -> Option<u64>
    requires { IsUsable scope.now.domains scope.now.variables }
{
    match made::guard(alloc, count) {
        Ok(guard) => comparisons(alloc, scope, &guard, count, turns),
        Err(_) => None,
    }
}

/// A guard of comparisons.
pub fn guard(alloc: Global, count: u32, turns: u32) -> Option<u64> {
    match made::scope(alloc, count, count) {
        Ok(scope) => guard_in(alloc, &scope, count, turns),
        Err(_) => None,
    }
}
