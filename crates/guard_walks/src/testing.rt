ghost use Rattle.std.specs.Prelude.{◌≡◌, ◌<◌, ◌≤◌, length, slice_get, take, Some, IfSome, IfNone};
ghost use Rattle.bindings.specs.Listed.{IsBinding};
ghost use Rattle.guard_walks.specs.Testing.{Fails, Passed};
ghost use Rattle.guard_walks.specs.Walks.{IsWalk, all_sizes, is_part_true_at, is_true_at};

use crate::parts::is_part_true;
use crate::walks::{GuardWalk, Signature};

/// Goes on testing from a test to the first that needs more variables. None where a test is false.
pub fn ready(
    signature: &Signature,
    walk: &GuardWalk,
    from: usize,
    bound: usize,
    indices: &[u32],
) -> Option<usize>
    requires walk { IsWalk signature.now walk.now }
    requires indices { IsBinding (all_sizes signature.now) indices.now }
    requires from { from ≤ length walk.now.tests }
    requires passed { Passed (is_part_true_at signature.now walk.now.guard) (all_sizes signature.now) walk.now.variables (take from walk.now.tests) bound indices.now }
    ensures within { IfSome result (λ at. at ≤ length walk.now.tests) }
    ensures passed { IfSome result (λ at. Passed (is_part_true_at signature.now walk.now.guard) (all_sizes signature.now) walk.now.variables (take at walk.now.tests) bound indices.now) }
    ensures stops { IfSome result (λ at. at < length walk.now.tests → (test : _) → slice_get walk.now.tests at ≡ Some test → bound < test.needs) }
    ensures fails { IfNone result (Fails (is_true_at signature.now walk.now.guard) (all_sizes signature.now) walk.now.variables bound indices.now) }
{
    let tests = walk.tests.as_slice();
    let mut at = from;
    while at < tests.len() && tests[at].needs as usize <= bound {
        if !is_part_true(signature, &walk.guard, tests[at].part, indices) {
            return None;
        }
        at += 1;
    }
    Some(at)
}
