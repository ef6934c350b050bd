//! Reads a property file and resolves one of its properties, so that its time and memory can be measured.
//!
//! `property_probe FILE ID COUNT` resolves the property of this id over a net whose places are `p0`, `p1` and on, so many, and whose
//! transitions are `t0`, `t1` and on, so many too. It prints how many properties there are, and `goal`; or why there is none:
//! `structure`, `no-property`, `not-reachability` or `unknown-node`. `property_probe FILE` reads the document alone, and prints
//! `document`. A file that is no document is `malformed`.
#![tactic(auto)]

ghost use Rattle.std.specs.Prelude.{◌≤◌, ◌^◌, length};

use doc_tree::{DocFault, Element, read_pieces};
use host_io::HostFiles;
use mcc_examples::layout_of;
use mcc_formula::{FormulaFault, find, read_properties, resolve};
use name_tables::{Ids, Name, decimal, read_number};
use pnml_inputs::{Role, read_input};
use pt_net::Layout;
use std::alloc::Global;
use std::env;
use std::process::ExitCode;
use wide_sums::Memory;

/// The tree of a document that lies whole in memory, or why it is none.
fn document(alloc: Global, bytes: &[u8]) -> Result<Element, DocFault>
    requires { length bytes.now ≤ 2 ^ 26 }
{
    read_pieces(alloc, &[bytes])
}

/// The most nodes of each kind.
const MOST_NODES: u32 = 16_777_216;

/// The names of a letter and a number, so many.
fn numbered(alloc: Global, letter: u8, count: u32) -> Result<Ids, Memory> {
    let mut ids = Ids::new(alloc);
    for number in 0..count {
        if ids.count() >= MOST_NODES {
            return Err(Memory);
        }
        let mut name = Name::new(alloc, &[letter])?;
        name.append(decimal(alloc, number as i128)?.bytes())?;
        ids.add(name)?;
    }
    Ok(ids)
}

/// A layout of so many places and transitions.
fn layout(alloc: Global, count: u32) -> Result<Layout, Memory> {
    let places = numbered(alloc, b'p', count)?;
    let transitions = numbered(alloc, b't', count)?;
    layout_of(alloc, places, transitions)?.ok_or(Memory)
}

/// How many properties a tree has, where the one of this id is a goal.
fn resolved(
    alloc: Global,
    root: Element,
    id: &[u8],
    layout: &Layout,
) -> Result<usize, FormulaFault> {
    let properties = read_properties(alloc, root)?;
    let at = find(&properties, id)?;
    match properties.list.get(at as usize) {
        Some(property) => {
            resolve(alloc, property, layout)?;
            Ok(properties.list.len())
        }
        None => Err(FormulaFault::NoProperty),
    }
}

/// What is printed in place of a number.
fn word_of(fault: &FormulaFault) -> &'static str {
    match fault {
        FormulaFault::Structure { .. } => "structure",
        FormulaFault::NoProperty => "no-property",
        FormulaFault::NotReachability { .. } => "not-reachability",
        FormulaFault::UnknownNode { .. } => "unknown-node",
        FormulaFault::Memory => "memory",
    }
}

/// How many nodes of each kind a word asks for.
fn count_of(word: &[u8]) -> u32 {
    match read_number(word, false) {
        Some(number) => u32::try_from(number).unwrap_or(0),
        None => 0,
    }
}

/// What is printed for a tree: `document` where no property is asked for.
fn asked(
    alloc: Global,
    root: Element,
    id: Option<&[u8]>,
    layout: &Layout,
) -> Result<Option<usize>, FormulaFault> {
    match id {
        Some(id) => Ok(Some(resolved(alloc, root, id, layout)?)),
        None => Ok(None),
    }
}

fn main(rt: HostRuntime) -> ExitCode {
    let Ok(mut args) = env::args(&rt) else {
        return ExitCode::from(5);
    };
    args.next();
    let Some(file) = args.next() else {
        return ExitCode::from(5);
    };
    let id = args.next();
    let count = match args.next() {
        Some(word) => count_of(word.as_bytes()),
        None => 0,
    };
    let Ok(layout) = layout(rt.alloc(), count) else {
        return ExitCode::from(4);
    };
    let mut files = HostFiles::new(rt);
    let name = Name::from(file.into_bytes());
    let Ok(bytes) = read_input(rt.alloc(), Role::Formula, &name, &mut files) else {
        return ExitCode::from(3);
    };
    let Ok(root) = document(rt.alloc(), bytes.as_slice()) else {
        return said(println!(rt; "malformed").is_ok());
    };
    let id = id.as_ref().map(|id| id.as_bytes());
    match asked(rt.alloc(), root, id, &layout) {
        Ok(Some(count)) => said(println!(rt; "{count} goal").is_ok()),
        Ok(None) => said(println!(rt; "document").is_ok()),
        Err(fault) => said(println!(rt; "{}", word_of(&fault)).is_ok()),
    }
}

/// The status behind a line that was printed or wasn't.
fn said(printed: bool) -> ExitCode {
    if printed {
        ExitCode::from(0)
    } else {
        ExitCode::from(3)
    }
}
