ghost use Rattle.std.specs.Prelude.{◌≡◌, ◌<◌, ◌≤◌, ◌^◌, true, length, IfOk, IfSome};
ghost use Rattle.std.specs.List.{range_with_len};
ghost use Rattle.bindings.specs.Listed.{IsBinding, product};
ghost use Rattle.multiset_terms.specs.Usable.{IsUsable};
ghost use Rattle.guard_walks.specs.Walks.{IsGuard, IsWalk, all_sizes};

use crate::guards::guard;
use bindings::count_of;
use guard_walks::{GuardWalk, Signature, bind};
use multiset_terms::{CGuard, compile_guard, is_binding};
use sqlite_items::Items;
use std::alloc::Global;
use term_scopes::{Scope, written};
use wide_sums::Memory;

/// All variables, in their order.
fn all_of(alloc: Global, count: u32) -> Result<Items<u32>, Memory>
    ensures { IfOk result (λ all. all ≡ range_with_len 0 count) }
{
    let mut all = Vec::new(alloc);
    for number in 0..count {
        all.push(number)?;
    }
    Ok(Items::from_vec(all))
}

/// How many colours the sort of each variable has.
fn sizes(alloc: Global, signature: &Signature) -> Result<Vec<u32>, Memory>
    requires { IsUsable signature.now.domains signature.now.variables }
    ensures { IfOk result (λ sizes. sizes.items ≡ all_sizes signature.now) }
{
    let sorts = signature.variables.sorts();
    let mut sizes = Vec::new(alloc);
    for sort in sorts {
        sizes.push(signature.domains.size(sort))?;
    }
    Ok(sizes)
}

/// A guard that stands for a written one.
fn compiled(alloc: Global, signature: &Signature, number: u32) -> Option<CGuard>
    requires { IsUsable signature.now.domains signature.now.variables }
    ensures { IfSome result (IsGuard signature.now) }
{
    let Ok(written) = guard(alloc, number) else {
        return None;
    };
    match compile_guard(alloc, &signature.domains, &signature.variables, &written) {
        Ok(compiled) => Some(compiled),
        Err(_) => None,
    }
}

/// A walk over all variables with the guard of a number.
fn walk_of(alloc: Global, signature: &Signature, number: u32) -> Option<GuardWalk>
    requires { IsUsable signature.now.domains signature.now.variables }
    ensures { IfSome result (IsWalk signature.now) }
{
    let Ok(sizes) = sizes(alloc, signature) else {
        return None;
    };
    if sizes.len() > 8 || count_of(sizes.as_slice()) > 2_097_152 {
        return None;
    }
    let Ok(all) = all_of(alloc, sizes.len() as u32) else {
        return None;
    };
    let compiled = compiled(alloc, signature, number)?;
    match GuardWalk::new(alloc, signature, all, compiled) {
        Ok(walk) => Some(walk),
        Err(_) => None,
    }
}

/// The numbers of bindings under which a guard is true, and how many were tried.
#[derive(Debug, Drop)]
pub struct Kept {
    /// The numbers.
    pub numbers: Vec<u32>,
    /// How many were tried.
    pub tried: u32,
}

/// Goes through the numbers of the first end up to and without the second one.
fn kept_by(
    alloc: Global,
    signature: &Signature,
    walk: &GuardWalk,
    ends: (u32, u32),
    indices: &mut [u32],
) -> Result<Kept, Memory>
    requires walk { IsWalk signature.now walk.now }
    requires within { ends.1 ≤ walk.now.total }
    requires indices { IsBinding (all_sizes signature.now) indices.old }
{
    let mut numbers = Vec::new(alloc);
    let mut tried: u32 = 0;
    let mut number = ends.0;
    while number < ends.1 {
        tried = tried.saturating_add(1);
        match bind(signature, walk, number, indices) {
            Some(passed) => number += passed,
            None => {
                numbers.push(number)?;
                number += 1;
            }
        }
    }
    Ok(Kept { numbers, tried })
}

fn found_in(
    alloc: Global,
    signature: &Signature,
    walk: &GuardWalk,
    ends: (u32, u32),
) -> Option<Kept>
    requires usable { IsUsable signature.now.domains signature.now.variables }
    requires walk { IsWalk signature.now walk.now }
{
    let Ok(mut indices) = vec![in alloc; 0; walk.variables.as_slice().len()] else {
        return None;
    };
    if ends.1 > walk.total
        || !is_binding(&signature.domains, &signature.variables, indices.as_slice())
    {
        return None;
    }
    match kept_by(alloc, signature, walk, ends, indices.as_mut_slice()) {
        Ok(kept) => Some(kept),
        Err(_) => None,
    }
}

fn found_by(alloc: Global, signature: &Signature, number: u32, ends: (u32, u32)) -> Option<Kept>
    requires { IsUsable signature.now.domains signature.now.variables }
{
    match walk_of(alloc, signature, number) {
        Some(walk) => found_in(alloc, signature, &walk, ends),
        None => None,
    }
}

/// The same of the guard of a number over declarations that are written as text.
pub fn found(
    alloc: Global,
    sorts: &[u8],
    variables: &[u8],
    number: u32,
    ends: (u32, u32),
) -> Option<Kept> {
    match written(alloc, sorts, variables) {
        Ok(Scope { domains, variables }) => {
            let signature = Signature { domains, variables };
            found_by(alloc, &signature, number, ends)
        }
        Err(_) => None,
    }
}
