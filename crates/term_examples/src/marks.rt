use crate::rows::{compiled, compiled_guard, example};
use colour_sorts::Sort;
use multiset_terms::{
    CTerm, dots, gross, is_block, mark_guard_uses, mark_uses, sort_of, support, uses,
};
use std::alloc::Global;
use wide_sums::Memory;

/// The letters of the first variables of the examples.
const LETTERS: [u8; 4] = [b'x', b'y', b'z', b'r'];

/// Marks of the first variables, of which r is marked already.
const BEFORE: [bool; 4] = [false, false, false, true];

/// Whether the variables of these letters, and r, are marked.
fn are_marked(marks: [bool; 4], letters: &[u8]) -> bool {
    for at in 0..4 {
        if marks[at] != (letters.contains(&LETTERS[at]) || at == 3) {
            return false;
        }
    }
    true
}

/// Whether a term marks the variables of these letters.
fn is_marking(alloc: Global, letters: &[u8], text: &[u8]) -> bool {
    let Ok(scope) = example(alloc) else {
        return false;
    };
    let mut marks = BEFORE;
    match compiled(alloc, &scope, false, text) {
        Ok(term) => {
            mark_uses(&term, &mut marks);
            are_marked(marks, letters)
        }
        Err(_) => false,
    }
}

/// Whether a guard marks the variables of these letters.
fn is_marking_guard(alloc: Global, letters: &[u8], text: &[u8]) -> bool {
    let Ok(scope) = example(alloc) else {
        return false;
    };
    let mut marks = BEFORE;
    match compiled_guard(alloc, &scope, text) {
        Ok(guard) => {
            mark_guard_uses(&guard, &mut marks);
            are_marked(marks, letters)
        }
        Err(_) => false,
    }
}

#[test]
fn variables_of_terms_are_marked(rt: HostRuntime) {
    assert!(rt; is_marking(rt.alloc(), b"", b"a0"));
    assert!(rt; is_marking(rt.alloc(), b"x", b"all:A x minus"));
    assert!(rt; is_marking(rt.alloc(), b"xyz", b"x y tuple:2 z succ pred tuple:2"));
    assert!(rt; is_marking(rt.alloc(), b"y", b"all:A y tuple:2 times:2 p add:2"));
    assert!(rt; is_marking(rt.alloc(), b"z", b"z block:Turn"));
    assert!(rt; is_marking(rt.alloc(), b"", b"d d add:2"));
}

#[test]
fn variables_of_guards_are_marked(rt: HostRuntime) {
    assert!(rt; is_marking_guard(rt.alloc(), b"", b"yes no or:2"));
    assert!(rt; is_marking_guard(rt.alloc(), b"xz", b"x a0 = z z succ < imply"));
    assert!(rt; is_marking_guard(rt.alloc(), b"yz", b"z z succ < not y b0 = and:2"));
    assert!(rt; is_marking_guard(rt.alloc(), b"x", b"x block:Side inner ="));
}

/// A word so often, and an end behind it.
fn repeated(alloc: Global, word: &[u8], count: u32, end: &[u8]) -> Result<Vec<u8>, Memory> {
    let mut text = Vec::new(alloc);
    for _word in 0..count {
        text.extend_from_slice(word)?;
    }
    text.extend_from_slice(end)?;
    Ok(text)
}

fn marks_repeated(alloc: Global) -> bool {
    let Ok(text) = repeated(alloc, b"y ", 2_000, b"b0 add:2001") else {
        return false;
    };
    is_marking(alloc, b"y", text.as_slice())
}

fn marks_repeated_guards(alloc: Global) -> bool {
    let Ok(text) = repeated(alloc, b"y b0 = ", 1_000, b"z z succ = and:1001") else {
        return false;
    };
    is_marking_guard(alloc, b"yz", text.as_slice())
}

#[test]
fn variables_of_large_terms_and_guards_are_marked(rt: HostRuntime) {
    assert!(rt; marks_repeated(rt.alloc()));
    assert!(rt; marks_repeated_guards(rt.alloc()));
}

fn is_dot(sort: &Sort) -> bool {
    match sort {
        Sort::Dot => true,
        _ => false,
    }
}

/// Whether a term stands for so many dots.
fn is_count(term: &CTerm, number: u64) -> bool {
    is_dot(sort_of(term))
        && !is_block(term)
        && gross(term) == number
        && support(term) == 1
        && !uses(term, 0)
}

fn counts(alloc: Global, number: u64) -> bool {
    if number > 9_223_372_036_854_775_807 {
        return false;
    }
    match dots(alloc, number) {
        Ok(term) => is_count(&term, number),
        Err(_) => false,
    }
}

#[test]
fn dots_are_counted(rt: HostRuntime) {
    assert!(rt; counts(rt.alloc(), 0));
    assert!(rt; counts(rt.alloc(), 1));
    assert!(rt; counts(rt.alloc(), 1_000_000_007));
    assert!(rt; counts(rt.alloc(), 9_223_372_036_854_775_807));
}
