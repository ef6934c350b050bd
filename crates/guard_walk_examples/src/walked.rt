use crate::walks::found;
use std::alloc::Global;

/// Whether the guard of a number over x, y, z and w of the range from 0 to `last` is true under the bindings of just these numbers, and so
/// many are tried.
fn is_kept(
    alloc: Global,
    sorts: &[u8],
    guard: u32,
    ends: (u32, u32),
    expected: &[u32],
    tried: u32,
) -> bool {
    match found(alloc, sorts, b"x:R;y:R;z:R;w:R", guard, ends) {
        Some(kept) => *kept.numbers.as_slice() == *expected && kept.tried == tried,
        None => false,
    }
}

#[test]
fn all_bindings_are_kept_where_there_is_no_guard(rt: HostRuntime) {
    assert!(rt; is_kept(rt.alloc(), b"R:0/1", 0, (3, 7), &[3, 4, 5, 6], 4));
}

#[test]
fn equal_variables_are_found_and_the_others_passed_over(rt: HostRuntime) {
    assert!(rt; is_kept(rt.alloc(), b"R:0/2", 1, (0, 81), &[0, 40, 80], 21));
}

#[test]
fn a_range_that_is_cut_within_a_stretch_keeps_its_own(rt: HostRuntime) {
    assert!(rt; is_kept(rt.alloc(), b"R:0/2", 1, (0, 39), &[0], 9));
    assert!(rt; is_kept(rt.alloc(), b"R:0/2", 1, (39, 41), &[40], 2));
    assert!(rt; is_kept(rt.alloc(), b"R:0/2", 1, (41, 81), &[80], 10));
}

#[test]
fn a_part_is_tested_as_soon_as_its_variables_are_bound(rt: HostRuntime) {
    assert!(rt; is_kept(rt.alloc(), b"R:0/1", 2, (0, 16), &[0, 3, 12, 15], 10));
}

#[test]
fn a_guard_that_is_false_everywhere_is_tested_once(rt: HostRuntime) {
    assert!(rt; is_kept(rt.alloc(), b"R:0/31", 3, (0, 1_048_576), &[], 1));
}

#[test]
fn variables_of_which_the_last_two_are_free(rt: HostRuntime) {
    assert!(rt;
        is_kept(
            rt.alloc(),
            b"R:0/1",
            4,
            (0, 16),
            &[4, 5, 6, 7, 8, 9, 10, 11],
            10
        )
    );
}

/// How many bindings of a long range are kept, the last of them, and how many were tried.
fn many(alloc: Global) -> Option<(usize, u32, u32)> {
    let kept = found(alloc, b"R:0/31", b"x:R;y:R;z:R;w:R", 1, (0, 1_048_576))?;
    let numbers = kept.numbers.as_slice();
    let last = if numbers.is_empty() {
        0
    } else {
        numbers[numbers.len() - 1]
    };
    Some((numbers.len(), last, kept.tried))
}

#[test]
fn of_a_million_bindings_few_are_tried(rt: HostRuntime) {
    assert!(rt; many(rt.alloc()) == Some((32, 1_048_575, 3_008)));
}

#[test]
fn without_variables_there_is_one_binding(rt: HostRuntime) {
    match found(rt.alloc(), b"R:0/1", b"", 0, (0, 1)) {
        Some(kept) => assert!(rt; kept.numbers.len() == 1),
        None => assert!(rt; false),
    }
}
