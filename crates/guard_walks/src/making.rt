ghost use Rattle.std.specs.Prelude.{◌≡◌, ℕ, ◌<◌, ◌≤◌, ◌^◌, true, length, slice_index, IfOk};
ghost use Rattle.bindings.specs.Listed.{product};
ghost use Rattle.multiset_terms.specs.Conditions.{condition_uses_at};
ghost use Rattle.multiset_terms.specs.Standing.{compiled_parts};
ghost use Rattle.multiset_terms.specs.Usable.{IsUsable};
ghost use Rattle.guard_walks.specs.Testing.{AreTests};
ghost use Rattle.guard_walks.specs.Walks.{AreVariables, IsGuard, IsOver, IsWalk, all_sizes, is_part_true_at, is_true_at, part_at, values_at};

use crate::parts::does_occur;
use crate::walks::{GuardWalk, Signature, Test};
use bindings::count_of;
use multiset_terms::{CGuard, part_count};
use sqlite_items::Items;
use std::alloc::Global;
use wide_sums::Memory;

/// How many variables are bound when the last one of a part is.
fn needs_of(signature: &Signature, guard: &CGuard, at: u32, variables: &[u32]) -> u32
    requires known { IsGuard signature.now guard.now }
    requires there { at < length (compiled_parts guard.now) }
    requires declared { AreVariables (length (all_sizes signature.now)) variables.now }
    requires few { length variables.now < 2 ^ 32 }
    ensures within { result ≤ length variables.now }
    ensures last { (k : ℕ) → k < length variables.now → condition_uses_at (slice_index variables.now k) (part_at guard.now at) ≡ true → k < result }
{
    let mut needs = 0;
    for position in 0..variables.len() {
        if does_occur(signature, guard, at, variables[position]) {
            needs = position as u32 + 1;
        }
    }
    needs
}

/// The tests of a guard, those that need fewer variables first.
fn tests_of(
    alloc: Global,
    signature: &Signature,
    guard: &CGuard,
    variables: &[u32],
) -> Result<Items<Test>, Memory>
    requires known { IsGuard signature.now guard.now }
    requires declared { AreVariables (length (all_sizes signature.now)) variables.now }
    requires few { length variables.now < 2 ^ 32 }
    requires over { IsOver signature.now guard.now variables.now }
    ensures { IfOk result (AreTests (is_part_true_at signature.now guard.now) (length (compiled_parts guard.now)) (is_true_at signature.now guard.now) (all_sizes signature.now) variables.now) }
{
    let mut tests = Vec::new(alloc);
    for at in 0..part_count(guard) {
        let needs = needs_of(signature, guard, at, variables);
        tests.push(Test { needs, part: at })?;
    }
    tests.sort()?;
    Ok(Items::from_vec(tests))
}

/// How many colours the sorts of variables have.
fn sizes_of(alloc: Global, signature: &Signature, variables: &[u32]) -> Result<Items<u32>, Memory>
    requires usable { IsUsable signature.now.domains signature.now.variables }
    requires declared { AreVariables (length (all_sizes signature.now)) variables.now }
    ensures { IfOk result (λ sizes. sizes ≡ values_at (all_sizes signature.now) variables.now) }
{
    let sorts = signature.variables.sorts();
    let mut sizes = Items::new(alloc);
    for variable in variables {
        sizes.push(signature.domains.size(&sorts[*variable as usize]))?;
    }
    Ok(sizes)
}

impl GuardWalk {
    /// A walk over the bindings of some declared variables, by their numbers, which differ, in the order in which they are bound. The guard
    /// is compiled over the declarations, its variables are among these, and there are fewer than 2^32 variables and bindings.
    pub fn new(
        alloc: Global,
        signature: &Signature,
        variables: Items<u32>,
        guard: CGuard,
    ) -> Result<GuardWalk, Memory>
        requires known { IsGuard signature.now guard }
        requires declared { AreVariables (length (all_sizes signature.now)) variables }
        requires over { IsOver signature.now guard variables }
        requires few { length variables < 2 ^ 32 }
        requires small { product (values_at (all_sizes signature.now) variables) < 2 ^ 32 }
        ensures walk { IfOk result (IsWalk signature.now) }
        ensures guard { IfOk result (λ walk. walk.guard ≡ guard) }
        ensures variables { IfOk result (λ walk. walk.variables ≡ variables) }
    {
        let sizes = sizes_of(alloc, signature, variables.as_slice())?;
        let total = count_of(sizes.as_slice()) as u32;
        let tests = tests_of(alloc, signature, &guard, variables.as_slice())?;
        Ok(GuardWalk {
            variables,
            sizes,
            total,
            guard,
            tests,
        })
    }
}
