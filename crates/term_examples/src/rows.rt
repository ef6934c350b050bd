//! What rows say of terms and guards. A row is a kind and what is said, `|`, and a term or a guard.

ghost use Rattle.std.specs.Prelude.{IfOk};
ghost use Rattle.multiset_terms.specs.Usable.{IsUsable};

use crate::steps::{guard, term};
use colour_sorts::Sort;
use colour_tables::{cut, word_for};
use multiset_terms::{
    CGuard, CTerm, EvalFault, TermFault, compile_guard, compile_term, gross, guard_uses, is_block,
    sort_of, support, uses,
};
use name_tables::read_number;
use std::alloc::Global;
use term_scopes::{ExampleFault, Scope, ScopeFault, truth, value, written};
use wide_sums::{Cell, Row};

/// The sorts A of a0, a1, a2; B of b1, b0, in that order; C, a cyclic one of c0, c1, c2; R, from -1 to 2; D, dot; P, the
/// pairs of A and B. The partitions Side of A, Turn of C and Reach of R. The variables x of A, y of B, z of C, r of R, p
/// of P and d of D.
pub fn example(alloc: Global) -> Result<Scope, ScopeFault>
    ensures { IfOk result (λ scope. IsUsable scope.domains scope.variables) }
{
    written(
        alloc,
        b"A:listed a0 a1 a2;B:listed b1 b0;C:cyclic c0 c1 c2;R:-1/2;D:dot;P:product A B;Side:A|outer a0 a2|inner a1;Turn:C|one c1|two c0 c2;Reach:R|far -1/-1/2 2/-1/2|near 0/-1/2 1/-1/2",
        b"x:A;y:B;z:C;r:R;p:P;d:D",
    )
}

fn is_number(word: &[u8], number: u64) -> bool {
    match read_number(word, false) {
        Some(said) => said >= 0 && said as u64 == number,
        None => false,
    }
}

/// Whether a cell is as a word like `2*1` says: the number of a colour, and how often it is there.
fn is_cell(cell: &Cell, word: &[u8]) -> bool {
    let (at, count) = cut(word, b'*');
    is_number(at, cell.at as u64) && is_number(count, cell.count)
}

/// Whether a row has exactly the cells of some words.
fn has_cells(row: &Row, words: &[u8]) -> bool {
    let mut cells = row.cells();
    for word in words.split(|byte| *byte == b' ') {
        match cells {
            [cell, rest @ ..] if is_cell(cell, word) => cells = rest,
            _ => return cells.is_empty() && words.is_empty(),
        }
    }
    cells.is_empty()
}

fn value_of(alloc: Global, scope: &Scope, indices: &[u32], text: &[u8]) -> Result<Row, ExampleFault>
    requires { IsUsable scope.now.domains scope.now.variables }
{
    match term(alloc, text) {
        Ok(term) => value(alloc, scope, &term, indices),
        Err(_) => Err(ExampleFault::Refused(TermFault::Memory)),
    }
}

/// Whether the value of a term has these cells, and is none where the word is `none`.
fn is_value(alloc: Global, scope: &Scope, indices: &[u32], said: &[u8], text: &[u8]) -> bool
    requires { IsUsable scope.now.domains scope.now.variables }
{
    match value_of(alloc, scope, indices, text) {
        Ok(row) => has_cells(&row, said),
        Err(ExampleFault::NoValue(EvalFault::Negative)) => said == b"none".as_slice(),
        Err(_) => false,
    }
}

fn truth_of(
    alloc: Global,
    scope: &Scope,
    indices: &[u32],
    text: &[u8],
) -> Result<bool, ExampleFault>
    requires { IsUsable scope.now.domains scope.now.variables }
{
    match guard(alloc, text) {
        Ok(guard) => truth(alloc, scope, &guard, indices),
        Err(_) => Err(ExampleFault::Refused(TermFault::Memory)),
    }
}

/// Whether a guard is `true` or `false`.
pub fn is_truth(alloc: Global, scope: &Scope, indices: &[u32], said: &[u8], text: &[u8]) -> bool
    requires { IsUsable scope.now.domains scope.now.variables }
{
    match truth_of(alloc, scope, indices, text) {
        Ok(true) => said == b"true".as_slice(),
        Ok(false) => said == b"false".as_slice(),
        Err(_) => false,
    }
}

/// A compiled term, which stands in a marking or doesn't.
pub fn compiled(
    alloc: Global,
    scope: &Scope,
    marking: bool,
    text: &[u8],
) -> Result<CTerm, TermFault>
    requires { IsUsable scope.now.domains scope.now.variables }
{
    match term(alloc, text) {
        Ok(term) => compile_term(alloc, &scope.domains, &scope.variables, marking, &term),
        Err(_) => Err(TermFault::Memory),
    }
}

/// A compiled guard.
pub fn compiled_guard(alloc: Global, scope: &Scope, text: &[u8]) -> Result<CGuard, TermFault>
    requires { IsUsable scope.now.domains scope.now.variables }
{
    match guard(alloc, text) {
        Ok(guard) => compile_guard(alloc, &scope.domains, &scope.variables, &guard),
        Err(_) => Err(TermFault::Memory),
    }
}

/// Whether a refusal has the node and the rule, or the weight, that some words say.
fn is_fault(fault: TermFault, said: &[u8]) -> bool {
    let (node, word) = cut(said, b' ');
    match fault {
        TermFault::IllTyped { at, rule } => is_number(node, at as u64) && word_for(rule) == word,
        TermFault::Weight { at } => is_number(node, at as u64) && word == b"weight".as_slice(),
        TermFault::Memory => false,
    }
}

/// Whether a term is refused as some words say, or not where they are `none`.
fn is_refused(alloc: Global, scope: &Scope, marking: bool, said: &[u8], text: &[u8]) -> bool
    requires { IsUsable scope.now.domains scope.now.variables }
{
    match compiled(alloc, scope, marking, text) {
        Ok(_) => said == b"none".as_slice(),
        Err(fault) => is_fault(fault, said),
    }
}

fn is_refused_guard(alloc: Global, scope: &Scope, said: &[u8], text: &[u8]) -> bool
    requires { IsUsable scope.now.domains scope.now.variables }
{
    match compiled_guard(alloc, scope, text) {
        Ok(_) => false,
        Err(fault) => is_fault(fault, said),
    }
}

/// Whether a compiled term has the gross total and the support of some words, with `block` behind them for a block.
fn has_weights(term: &CTerm, said: &[u8]) -> bool {
    let (first, rest) = cut(said, b' ');
    let (second, word) = cut(rest, b' ');
    is_number(first, gross(term))
        && is_number(second, support(term))
        && is_block(term) == (word == b"block".as_slice())
}

/// Whether a compiled term is of the enumeration at the place of the first word, and x and y occur in it, as the
/// others say.
fn has_parts(term: &CTerm, said: &[u8]) -> bool {
    let (place, rest) = cut(said, b' ');
    let (first, second) = cut(rest, b' ');
    let is_there = match sort_of(term) {
        Sort::Listed(at) => is_number(place, *at as u64),
        _ => false,
    };
    is_there
        && uses(term, 0) == (first == b"x".as_slice())
        && uses(term, 1) == (second == b"y".as_slice())
}

fn is_told(alloc: Global, scope: &Scope, kind: &[u8], said: &[u8], text: &[u8]) -> bool
    requires { IsUsable scope.now.domains scope.now.variables }
{
    match compiled(alloc, scope, false, text) {
        Ok(term) => {
            if kind == b"weights".as_slice() {
                has_weights(&term, said)
            } else {
                has_parts(&term, said)
            }
        }
        Err(_) => false,
    }
}

/// Whether x and y occur in a guard as the words say.
fn is_told_guard(alloc: Global, scope: &Scope, said: &[u8], text: &[u8]) -> bool
    requires { IsUsable scope.now.domains scope.now.variables }
{
    let (first, second) = cut(said, b' ');
    match compiled_guard(alloc, scope, text) {
        Ok(guard) => {
            guard_uses(&guard, 0) == (first == b"x".as_slice())
                && guard_uses(&guard, 1) == (second == b"y".as_slice())
        }
        Err(_) => false,
    }
}

fn is_right(alloc: Global, scope: &Scope, indices: &[u32], line: &[u8]) -> bool
    requires { IsUsable scope.now.domains scope.now.variables }
{
    let (head, text) = cut(line, b'|');
    let (kind, said) = cut(head, b' ');
    match kind {
        b"value" => is_value(alloc, scope, indices, said, text),
        b"refused" => is_refused(alloc, scope, false, said, text),
        b"marking" => is_refused(alloc, scope, true, said, text),
        b"guard" => is_truth(alloc, scope, indices, said, text),
        b"refused-guard" => is_refused_guard(alloc, scope, said, text),
        b"guard-uses" => is_told_guard(alloc, scope, said, text),
        _ => is_told(alloc, scope, kind, said, text),
    }
}

fn wrong_line(alloc: Global, scope: &Scope, indices: &[u32], lines: &[u8]) -> Option<usize>
    requires { IsUsable scope.now.domains scope.now.variables }
{
    for (number, line) in lines.split(|byte| *byte == b'\n').enumerate() {
        if !line.is_empty() && !is_right(alloc, scope, indices, line) {
            return Some(number);
        }
    }
    None
}

/// The number of the first line that isn't right where the variables have the colours of these numbers.
pub fn first_wrong(alloc: Global, indices: &[u32], lines: &[u8]) -> Option<usize> {
    match example(alloc) {
        Ok(scope) => wrong_line(alloc, &scope, indices, lines),
        Err(_) => Some(0),
    }
}
