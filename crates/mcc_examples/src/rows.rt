use crate::layouts::{layout_of, names};
use doc_tree::{Fault, read_pieces};
use mcc_formula::{Count, Formula, FormulaFault, Goal, find, read_properties, resolve};
use name_tables::{Name, decimal};
use pt_net::Layout;
use std::alloc::Global;
use std::test::Fail;
use wide_sums::Memory;

/// Documents that differ in one part: what stands before the part, what stands behind it, and the parts, one on a line. A line has
/// what comes of the document, and the part, with `^` before the element at which a fault is.
pub struct Rows {
    pub before: &'static [u8],
    pub behind: &'static [u8],
    pub lines: &'static [u8],
}

/// The fault that a word names.
fn fault_named(word: &[u8], at: u64) -> Option<FormulaFault> {
    match word {
        b"unexpected" => Some(FormulaFault::Structure {
            at,
            kind: Fault::Unexpected,
        }),
        b"missing-child" => Some(FormulaFault::Structure {
            at,
            kind: Fault::MissingChild,
        }),
        b"bad-id" => Some(FormulaFault::Structure {
            at,
            kind: Fault::BadId,
        }),
        b"duplicate-id" => Some(FormulaFault::Structure {
            at,
            kind: Fault::DuplicateId,
        }),
        b"not-reachability" => Some(FormulaFault::NotReachability { at }),
        b"unknown-node" => Some(FormulaFault::UnknownNode { at }),
        _ => None,
    }
}

/// A net of the places `p0`, `p1` and `both` and of the transitions `t`, `u` and `both`.
fn small_layout(alloc: Global) -> Result<Option<Layout>, Memory> {
    let places = names(alloc, &[b"p0", b"p1", b"both"])?;
    let transitions = names(alloc, &[b"t", b"both", b"u"])?;
    layout_of(alloc, places, transitions)
}

/// Writes numbers with commas between them.
fn write_numbers(alloc: Global, out: &mut Name, numbers: &[u32]) -> Result<(), Memory> {
    for (at, number) in numbers.iter().enumerate() {
        if at > 0 {
            out.push(b',')?;
        }
        out.append(decimal(alloc, *number as i128)?.bytes())?;
    }
    Ok(())
}

fn write_count(alloc: Global, out: &mut Name, count: &Count) -> Result<(), Memory> {
    match count {
        Count::Number(number) => out.append(decimal(alloc, *number as i128)?.bytes()),
        Count::Tokens(places) => {
            out.push(b'#')?;
            write_numbers(alloc, out, places.as_slice())
        }
    }
}

/// Writes a formula: `!` before what isn't true, `&` or `|` before formulas in brackets, two counts with `<=` between them, `#`
/// before places, and `?` before transitions.
#[cycle(writing)]
fn write_formula(alloc: Global, out: &mut Name, formula: &Formula) -> Result<(), Memory> {
    match formula {
        Formula::Not(child) => {
            out.push(b'!')?;
            write_formula(alloc, out, child.get())
        }
        Formula::And(children) => {
            out.push(b'&')?;
            write_formulas(alloc, out, children.as_slice())
        }
        Formula::Or(children) => {
            out.push(b'|')?;
            write_formulas(alloc, out, children.as_slice())
        }
        Formula::AtMost(first, second) => {
            write_count(alloc, out, first)?;
            out.append(b"<=")?;
            write_count(alloc, out, second)
        }
        Formula::Fireable(transitions) => {
            out.push(b'?')?;
            write_numbers(alloc, out, transitions.as_slice())
        }
    }
}

#[cycle(writing)]
fn write_formulas(alloc: Global, out: &mut Name, formulas: &[Formula]) -> Result<(), Memory> {
    for formula in formulas {
        out.push(b'(')?;
        write_formula(alloc, out, formula)?;
        out.push(b')')?;
    }
    Ok(())
}

/// The text of a goal: `A` where it is said of all markings, `E` where of some, and the formula.
pub fn goal_text(alloc: Global, goal: &Goal) -> Result<Name, Memory> {
    let start = if goal.universal { b'A' } else { b'E' };
    let mut out = Name::new(alloc, &[start])?;
    write_formula(alloc, &mut out, &goal.formula)?;
    Ok(out)
}

/// What comes of the one property of a document, whose id is `P`: the text of its goal, or the fault. A text that is no document
/// is read as one of no property.
pub fn outcome(alloc: Global, layout: &Layout, text: &[u8]) -> Result<Name, FormulaFault> {
    if text.len() > 1_000_000_000 {
        return Err(FormulaFault::Memory);
    }
    let Ok(root) = read_pieces(alloc, &[text]) else {
        return Err(FormulaFault::NoProperty);
    };
    let properties = read_properties(alloc, root)?;
    let at = find(&properties, b"P")?;
    match properties.list.get(at as usize) {
        Some(property) => Ok(goal_text(alloc, &resolve(alloc, property, layout)?)?),
        None => Err(FormulaFault::NoProperty),
    }
}

/// The document of a part in two pieces.
fn document(alloc: Global, rows: &Rows, first: &[u8], second: &[u8]) -> Result<Vec<u8>, Memory> {
    let mut text = Vec::from_slice(alloc, rows.before)?;
    text.extend_from_slice(first)?;
    text.extend_from_slice(second)?;
    text.extend_from_slice(rows.behind)?;
    Ok(text)
}

/// Whether a part has the fault of a word at its mark, or is the goal of that text where there is no mark. The word `fine` says
/// that the file breaks no rule, whatever its formula is.
fn is_as_said(
    alloc: Global,
    layout: &Layout,
    rows: &Rows,
    word: &[u8],
    part: &[u8],
) -> Result<bool, Memory> {
    match part.iter().position(|byte| *byte == b'^') {
        None => {
            let text = document(alloc, rows, part, b"")?;
            match outcome(alloc, layout, &text) {
                Ok(goal) => Ok(goal.bytes() == word),
                Err(FormulaFault::Structure { at: _, kind: _ }) => Ok(false),
                Err(_) => Ok(word == b"fine".as_slice()),
            }
        }
        Some(mark) => {
            let text = document(alloc, rows, &part[..mark], &part[mark + 1..])?;
            let fault = fault_named(word, (rows.before.len() + mark) as u64);
            match outcome(alloc, layout, &text) {
                Ok(_) => Ok(false),
                Err(found) => Ok(fault == Some(found)),
            }
        }
    }
}

/// The number of the first line that isn't as said, from 0; empty lines are passed over.
pub fn first_wrong(alloc: Global, rows: &Rows) -> Result<Option<usize>, Fail> {
    let Some(layout) = small_layout(alloc)? else {
        return Ok(Some(0));
    };
    for (number, line) in rows.lines.split(|byte| *byte == b'\n').enumerate() {
        let Some(space) = line.iter().position(|byte| *byte == b' ') else {
            continue;
        };
        if !is_as_said(alloc, &layout, rows, &line[..space], &line[space + 1..])? {
            return Ok(Some(number));
        }
    }
    Ok(None)
}
