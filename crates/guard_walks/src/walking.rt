ghost use Rattle.std.specs.Prelude.{◌≡◌, ℕ, ◌+◌, ◌<◌, ◌≤◌, Bool, List, length, slice_index, slice_set, take, IfSome, IfNone};
ghost use Rattle.bindings.specs.Listed.{IsBinding};
ghost use Rattle.guard_walks.specs.Testing.{Stands};
ghost use Rattle.guard_walks.specs.Walks.{AreVariables, HasTruth, IsFalseStretch, IsTrueBinding, IsWalk, all_sizes, values_at};

use crate::testing::ready;
use crate::walks::{GuardWalk, Signature};

/// How far the variables are bound to the values of a number.
#[derive(Clone, Copy, Debug)]
struct Progress {
    /// The number of the binding.
    number: u32,
    /// How many variables are bound.
    bound: usize,
    /// The number among the bindings that begin so.
    rest: u32,
    /// How many these are.
    weight: u32,
}

/// Gives one of the variables a value.
fn put(variables: &[u32], at: usize, value: u32, indices: &mut [u32])
    requires within { at < length variables.now }
    requires declared { AreVariables (length indices.old) variables.now }
    ensures values { values_at indices.new variables.now ≡ slice_set (values_at indices.old variables.now) at value }
    ensures binding { (all : List ℕ) → IsBinding all indices.old → value < slice_index all (slice_index variables.now at) → IsBinding all indices.new }
{
    indices[variables[at] as usize] = value;
}

/// Binds the next variable.
fn bind_next(walk: &GuardWalk, progress: &mut Progress, indices: &mut [u32])
    requires within { progress.old.bound < length walk.now.sizes }
    requires even { length walk.now.variables ≡ length walk.now.sizes }
    requires declared { AreVariables (length indices.old) walk.now.variables }
    requires stands { Stands walk.now.sizes progress.old (values_at indices.old walk.now.variables) }
    ensures number { progress.new.number ≡ progress.old.number }
    ensures bound { progress.new.bound ≡ progress.old.bound + 1 }
    ensures kept { take progress.old.bound (values_at indices.new walk.now.variables) ≡ take progress.old.bound (values_at indices.old walk.now.variables) }
    ensures stands { Stands walk.now.sizes progress.new (values_at indices.new walk.now.variables) }
    ensures binding { (all : List ℕ) → walk.now.sizes ≡ values_at all walk.now.variables → IsBinding all indices.old → IsBinding all indices.new }
{
    let weight = progress.weight / walk.sizes.as_slice()[progress.bound];
    let value = progress.rest / weight;
    put(walk.variables.as_slice(), progress.bound, value, indices);
    progress.rest %= weight;
    progress.weight = weight;
    progress.bound += 1;
}

/// Binds the variables to the values of a number, one after the other, and tests each part of the guard as soon as its variables are
/// bound. Where a part is false, no more are bound, and the answer is how many bindings from this one on begin so; they are false too.
///
/// The number is below the number of bindings. `indices` has a colour index for each declared variable, below the number of colours of its
/// sort; those of other variables stay as they are. It takes no memory.
pub fn bind(
    signature: &Signature,
    walk: &GuardWalk,
    number: u32,
    indices: &mut [u32],
) -> Option<u32>
    requires within { number < walk.now.total }
    requires walk { IsWalk signature.now walk.now }
    requires indices { IsBinding (all_sizes signature.now) indices.old }
    ensures indices { IsBinding (all_sizes signature.now) indices.new }
    ensures bound { (truth : List ℕ → Bool) → HasTruth signature.now walk.now truth → IfNone result (IsTrueBinding walk.now.sizes truth number (values_at indices.new walk.now.variables)) }
    ensures some { IfSome result (λ passed. 0 < passed) }
    ensures room { IfSome result (λ passed. number + passed ≤ walk.now.total) }
    ensures passed { (truth : List ℕ → Bool) → HasTruth signature.now walk.now truth → IfSome result (IsFalseStretch walk.now.sizes truth number) }
{
    let mut progress = Progress {
        number,
        bound: 0,
        rest: number,
        weight: walk.total,
    };
    let mut at = 0;
    loop {
        match ready(signature, walk, at, progress.bound, indices) {
            Some(next) => at = next,
            None => return Some(progress.weight - progress.rest),
        }
        if progress.bound == walk.sizes.len() {
            return None;
        }
        bind_next(walk, &mut progress, indices);
    }
}
