ghost use Rattle.std.specs.Prelude.{◌≡◌, IfOk, nat_lt, OnOk, ◌++◌, ◌∷◌, [], ℕ, ◌+◌, ◌-◌, ◌*◌, ◌<◌, ◌≤◌, ◌^◌, true, length, take, drop, slice_get, slice_index_or, All, Some};
ghost use Rattle.wide_sums.specs.Cells.{IsRow, amount, count_at};
ghost use Rattle.multiset_terms.specs.Rows.{AreBelow, AreInOrder, IsTakenIn, no_cell, total};
ghost use Rattle.multiset_terms.specs.Buffers.{Gains, cell_of};
ghost use Rattle.multiset_terms.specs.Trees.{once};

use std::alloc::Global;
use wide_sums::{Cell, Memory, Row};

/// How many times the counts of a value are added, and how far its places are moved on.
#[derive(Clone, Copy, Debug, PartialEq, Eq)]
pub struct Scale {
    /// The number that each count is multiplied by.
    pub times: u64,
    /// What is added to each place.
    pub offset: u32,
}

/// Makes a row of the cells, with the sum of the counts at each place. A place may have several cells, in any order.
///
/// It takes no memory, and cells whose places rise already are only looked at.
pub fn merge(cells: &mut Vec<Cell>)
    requires { (p : ℕ) → amount p cells.old.items < 2 ^ 63 }
    ensures row { IsRow cells.new.items }
    ensures counts { (p : ℕ) → amount p cells.new.items ≡ amount p cells.old.items }
    ensures total { total cells.new.items ≡ total cells.old.items }
    ensures below { (bound : ℕ) → AreBelow bound cells.old.items → AreBelow bound cells.new.items }
{
    if is_row(cells.as_slice()) {
        return;
    }
    cells.sort_unstable_by_key(|cell| cell.at);
    join(cells);
}

/// Whether cells are a row as they stand.
fn is_row(cells: &[Cell]) -> bool
    requires { (p : ℕ) → amount p cells.now < 2 ^ 63 }
    ensures { result ≡ true → IsRow cells.now }
{
    let mut next: u64 = 0;
    for cell in cells {
        if cell.count == 0 || (cell.at as u64) < next {
            return false;
        }
        next = cell.at as u64 + 1;
    }
    true
}

/// Sums up the counts of cells at one place, which stand side by side.
fn join(cells: &mut Vec<Cell>)
    requires sorted { AreInOrder cells.old.items }
    requires fits { (p : ℕ) → amount p cells.old.items < 2 ^ 63 }
    ensures row { IsRow cells.new.items }
    ensures counts { (p : ℕ) → amount p cells.new.items ≡ amount p cells.old.items }
    ensures total { total cells.new.items ≡ total cells.old.items }
    ensures below { (bound : ℕ) → AreBelow bound cells.old.items → AreBelow bound cells.new.items }
{
    let mut kept = 0;
    for read in 0..cells.len() {
        kept = take_in(cells, kept, read);
    }
    cells.truncate(kept);
}

/// Takes the cell at `read` in among the first `kept` cells, which are a row. Answers how many they are then.
fn take_in(cells: &mut Vec<Cell>, kept: usize, read: usize) -> usize
    requires order { kept ≤ read }
    requires within { read < length cells.old.items }
    requires front { IsRow (take kept cells.old.items) }
    requires later { All (λ c. c.at ≤ (slice_index_or cells.old.items read no_cell).at) (take kept cells.old.items) }
    requires fits { (p : ℕ) → amount p (take kept cells.old.items) + count_at p (slice_index_or cells.old.items read no_cell) < 2 ^ 63 }
    ensures { IsTakenIn cells.old.items kept read cells.new.items result }
{
    let cell = cells[read];
    if cell.count == 0 {
        return kept;
    }
    if kept > 0 && cells[kept - 1].at == cell.at {
        cells[kept - 1].count += cell.count;
        return kept;
    }
    cells[kept] = cell;
    kept + 1
}

/// Appends a cell.
pub fn push(cells: &mut Vec<Cell>, scale: Scale, at: u32, count: u64) -> Result<(), Memory>
    requires room { scale.offset + at < 2 ^ 32 }
    requires fits { scale.times * count < 2 ^ 63 }
    ensures { OnOk result (cells.new.items ≡ cells.old.items ++ cell_of scale at count ∷ []) }
{
    cells.push(Cell {
        at: scale.offset + at,
        count: scale.times * count,
    })?;
    Ok(())
}

/// Appends each place below `size` once.
pub fn add_each(size: u32, scale: Scale, cells: &mut Vec<Cell>) -> Result<(), Memory>
    requires room { scale.offset + size ≤ 2 ^ 32 }
    requires fits { scale.times * size < 2 ^ 63 }
    ensures { OnOk result (Gains scale size (λ p. once (nat_lt p size)) size cells.old.items cells.new.items) }
{
    for at in 0..size {
        push(cells, scale, at, 1)?;
    }
    Ok(())
}

/// Appends the cells of a row.
pub fn add_row(row: &[Cell], scale: Scale, cells: &mut Vec<Cell>) -> Result<(), Memory>
    requires room { All (λ c. scale.offset + c.at < 2 ^ 32) row.now }
    requires fits { scale.times * total row.now < 2 ^ 63 }
    ensures { OnOk result ((size : ℕ) → AreBelow size row.now → Gains scale size (λ q. amount q row.now) (total row.now) cells.old.items cells.new.items) }
{
    for cell in row {
        push(cells, scale, cell.at, cell.count)?;
    }
    Ok(())
}

/// The row of some cells, which are one.
pub fn row_of(alloc: Global, cells: &[Cell]) -> Result<Row, Memory>
    requires { IsRow cells.now }
    ensures { IfOk result (λ row. row ≡ cells.now) }
{
    let mut row = Row::new(alloc);
    for cell in cells {
        row.push(*cell)?;
    }
    Ok(row)
}
