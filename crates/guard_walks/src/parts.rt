ghost use Rattle.std.specs.Prelude.{◌≡◌, ◌<◌, length};
ghost use Rattle.bindings.specs.Listed.{IsBinding};
ghost use Rattle.multiset_terms.specs.Conditions.{condition_uses_at};
ghost use Rattle.multiset_terms.specs.Standing.{compiled_parts};
ghost use Rattle.guard_walks.specs.Walks.{IsGuard, all_sizes, is_part_true_at, part_at};

use crate::walks::Signature;
use multiset_terms::{CGuard, guard_uses, holds, part};

/// Whether a part of a guard is true under colour indices of all declared variables.
pub fn is_part_true(signature: &Signature, guard: &CGuard, at: u32, indices: &[u32]) -> bool
    requires known { IsGuard signature.now guard.now }
    requires there { at < length (compiled_parts guard.now) }
    requires indices { IsBinding (all_sizes signature.now) indices.now }
    ensures { result ≡ is_part_true_at signature.now guard.now at indices.now }
{
    holds(&signature.domains, part(guard, at), indices)
}

/// Whether a declared variable occurs in a part of a guard.
pub fn does_occur(signature: &Signature, guard: &CGuard, at: u32, variable: u32) -> bool
    requires known { IsGuard signature.now guard.now }
    requires there { at < length (compiled_parts guard.now) }
    requires declared { variable < length (all_sizes signature.now) }
    ensures { result ≡ condition_uses_at variable (part_at guard.now at) }
{
    guard_uses(part(guard, at), variable)
}
