//! Guards over variables of one range.

ghost use Rattle.std.specs.Prelude.{IfOk};
ghost use Rattle.multiset_terms.specs.Usable.{IsUsable};

use crate::rows::{compiled_guard, is_truth};
use multiset_terms::part_count;
use std::alloc::Global;
use term_scopes::{Scope, ScopeFault, written};

/// The variables x, y and z of the range from 1 to 3.
fn example(alloc: Global) -> Result<Scope, ScopeFault>
    ensures { IfOk result (λ scope. IsUsable scope.domains scope.variables) }
{
    written(alloc, b"R:1/3", b"x:R;y:R;z:R")
}

/// Whether a guard is as a word says where the variables have the colours of these numbers.
fn is_said(alloc: Global, indices: &[u32], said: &[u8], text: &[u8]) -> bool {
    match example(alloc) {
        Ok(scope) => is_truth(alloc, &scope, indices, said, text),
        Err(_) => false,
    }
}

#[test]
fn variables_of_one_range_are_compared(rt: HostRuntime) {
    assert!(rt; is_said(rt.alloc(), &[0, 2, 1], b"true", b"x y <"));
    assert!(rt; is_said(rt.alloc(), &[2, 2, 1], b"false", b"x y <"));
}

fn are_parts(alloc: Global, scope: &Scope, count: u32, text: &[u8]) -> bool
    requires { IsUsable scope.now.domains scope.now.variables }
{
    match compiled_guard(alloc, scope, text) {
        Ok(guard) => part_count(&guard) == count,
        Err(_) => false,
    }
}

/// Whether a guard has so many parts.
fn has_parts(alloc: Global, count: u32, text: &[u8]) -> bool {
    match example(alloc) {
        Ok(scope) => are_parts(alloc, &scope, count, text),
        Err(_) => false,
    }
}

#[test]
fn parts_of_guards_are_counted(rt: HostRuntime) {
    assert!(rt; has_parts(rt.alloc(), 2, b"x y = y z < and:2"));
    assert!(rt; has_parts(rt.alloc(), 1, b"yes"));
}
