ghost use Rattle.std.specs.Prelude.{◌≡◌, ◌+◌, ◌*◌, ◌<◌, ◌≤◌, ◌^◌, OnOk, IfOk, true, false};
ghost use Rattle.multiset_terms.specs.Rows.{AreFronts};
ghost use Rattle.multiset_terms.specs.Added.{AreAdded, HaveRoom, IsAdded, IsNothing, IsValue};
ghost use Rattle.multiset_terms.specs.Trees.{HasTuples, IsExtended, are_choices, are_defined, are_sound, gross_sum, reading, readings, tuple_size};

use crate::buffers::{Scale, add_each, add_row, merge, push};
use crate::cells::{extended, once_at};
use crate::differences::push_difference;
use crate::faults::EvalFault;
use crate::trees::{Tree, is_colour, place, size_of};
use std::alloc::Global;
use wide_sums::{Cell, Memory, Row};

/// Appends the cells of the multiset that a term stands for under a binding. `Negative` comes exactly where it has none.
///
/// Only a difference and a tuple with all colours of a sort among its components take memory of their own. After a fault the cells that
/// were appended mean nothing.
#[cycle(adding)]
pub fn add_value(
    alloc: Global,
    tree: &Tree,
    binding: &[u32],
    scale: Scale,
    cells: &mut Vec<Cell>,
) -> Result<(), EvalFault>
    requires sound { (reading binding.now tree.now).is_sound ≡ true }
    requires fits { scale.times * (reading binding.now tree.now).gross < 2 ^ 63 }
    requires room { scale.offset + (reading binding.now tree.now).size ≤ 2 ^ 32 }
    ensures value { OnOk result (IsAdded (reading binding.now tree.now) scale cells.old.items cells.new.items) }
    ensures negative { result ≡ Err EvalFault.Negative → (reading binding.now tree.now).is_defined ≡ false }
{
    match tree {
        Tree::All(size) => Ok(add_each(*size, scale, cells)?),
        Tree::Empty(_) => Ok(()),
        Tree::Times(number, child) => match scale.times.checked_mul(*number) {
            Some(times) => {
                let scale = Scale {
                    times,
                    offset: scale.offset,
                };
                add_value(alloc, child.get(), binding, scale, cells)
            }
            None => add_nothing(alloc, child.get(), binding, scale.offset),
        },
        Tree::Sum(_, parts) => add_sum(alloc, parts.as_slice(), binding, scale, cells),
        Tree::Product(_, parts) => {
            let row = product(alloc, parts.as_slice(), binding)?;
            Ok(add_row(row.cells(), scale, cells)?)
        }
        Tree::Minus(whole, part) => {
            let whole = match cells_of(alloc, whole.get(), binding) {
                Ok(whole) => whole,
                Err(fault) => return Err(fault),
            };
            let part = match cells_of(alloc, part.get(), binding) {
                Ok(part) => part,
                Err(fault) => return Err(fault),
            };
            push_difference(whole.as_slice(), part.as_slice(), scale, cells)
        }
        Tree::Variable(_, _)
        | Tree::Constant(_, _)
        | Tree::Next(_, _)
        | Tree::Before(_, _)
        | Tree::Tuple(_, _) => Ok(add_colour(tree, binding, scale, cells)?),
    }
}

fn add_colour(
    tree: &Tree,
    binding: &[u32],
    scale: Scale,
    cells: &mut Vec<Cell>,
) -> Result<(), Memory>
    requires sound { (reading binding.now tree.now).is_sound ≡ true }
    requires colour { (reading binding.now tree.now).is_colour ≡ true }
    requires fits { scale.times * (reading binding.now tree.now).gross < 2 ^ 63 }
    requires room { scale.offset + (reading binding.now tree.now).size ≤ 2 ^ 32 }
    ensures { OnOk result (IsAdded (reading binding.now tree.now) scale cells.old.items cells.new.items) }
{
    push(cells, scale, place(tree, binding), 1)?;
    Ok(())
}

/// Appends nothing: a term without elements, more than 2^64 - 1 times. Whether it has a value is still asked.
#[cycle(adding)]
fn add_nothing(alloc: Global, tree: &Tree, binding: &[u32], offset: u32) -> Result<(), EvalFault>
    requires sound { (reading binding.now tree.now).is_sound ≡ true }
    requires none { (reading binding.now tree.now).gross ≡ 0 }
    requires room { offset + (reading binding.now tree.now).size ≤ 2 ^ 32 }
    ensures value { OnOk result (IsNothing (reading binding.now tree.now) offset) }
    ensures negative { result ≡ Err EvalFault.Negative → (reading binding.now tree.now).is_defined ≡ false }
{
    let mut cells = Vec::new(alloc);
    let once = Scale { times: 1, offset };
    add_value(alloc, tree, binding, once, &mut cells)
}

#[cycle(adding)]
fn add_sum(
    alloc: Global,
    parts: &[Tree],
    binding: &[u32],
    scale: Scale,
    cells: &mut Vec<Cell>,
) -> Result<(), EvalFault>
    requires sound { are_sound (readings binding.now parts.now) ≡ true }
    requires fits { scale.times * gross_sum (readings binding.now parts.now) < 2 ^ 63 }
    requires room { HaveRoom scale.offset (readings binding.now parts.now) }
    ensures value { OnOk result (AreAdded (readings binding.now parts.now) scale cells.old.items cells.new.items) }
    ensures negative { result ≡ Err EvalFault.Negative → are_defined (readings binding.now parts.now) ≡ false }
{
    for part in parts {
        match add_value(alloc, part, binding, scale, cells) {
            Ok(()) => {}
            Err(fault) => return Err(fault),
        }
    }
    Ok(())
}

/// The cells of the multiset that a term stands for under a binding, as a row. `Negative` comes exactly where it has none.
#[cycle(adding)]
pub fn cells_of(alloc: Global, tree: &Tree, binding: &[u32]) -> Result<Vec<Cell>, EvalFault>
    requires sound { (reading binding.now tree.now).is_sound ≡ true }
    requires fits { (reading binding.now tree.now).gross < 2 ^ 63 }
    requires room { (reading binding.now tree.now).size ≤ 2 ^ 32 }
    ensures value { IfOk result (λ cells. IsValue (reading binding.now tree.now) cells.items) }
    ensures negative { result ≡ Err EvalFault.Negative → (reading binding.now tree.now).is_defined ≡ false }
{
    let mut cells = Vec::new(alloc);
    let once = Scale {
        times: 1,
        offset: 0,
    };
    match add_value(alloc, tree, binding, once, &mut cells) {
        Ok(()) => {
            merge(&mut cells);
            Ok(cells)
        }
        Err(fault) => Err(fault),
    }
}

/// Every tuple of the choices of some components, as a row. Each component makes a row of the row of those before it.
fn product(alloc: Global, parts: &[Tree], binding: &[u32]) -> Result<Row, Memory>
    requires choices { are_choices (readings binding.now parts.now) ≡ true }
    requires room { tuple_size (readings binding.now parts.now) ≤ 2 ^ 20 }
    ensures { IfOk result (λ row. HasTuples (readings binding.now parts.now) row) }
{
    let mut fronts = once_at(alloc, 0)?;
    for part in parts {
        fronts = chosen(alloc, &fronts, part, binding)?;
    }
    Ok(fronts)
}

/// A row with the choices of one more component.
fn chosen(alloc: Global, fronts: &Row, part: &Tree, binding: &[u32]) -> Result<Row, Memory>
    requires sound { (reading binding.now part.now).is_sound ≡ true }
    requires choice { (reading binding.now part.now).is_choice ≡ true }
    requires room { AreFronts (reading binding.now part.now).size fronts.now }
    ensures { IfOk result (λ row. IsExtended (reading binding.now part.now) fronts.now row) }
{
    let size = size_of(part);
    if is_colour(part) {
        let at = place(part, binding);
        let row = extended(alloc, fronts.cells(), size, at, at + 1)?;
        Ok(row)
    } else {
        let row = extended(alloc, fronts.cells(), size, 0, size)?;
        Ok(row)
    }
}
