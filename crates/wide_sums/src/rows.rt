ghost use Rattle.std.specs.Prelude.{◌≡◌, ◌^◌, ◌<◌, ◌≤◌, [], ◌∷◌, ◌++◌, OnOk, OnErr, All};

use crate::refusals::Memory;
use std::alloc::Global;
use std::marker::Model;

/// A count at a place of a row.
#[derive(Clone, Copy, Debug, PartialEq, Eq)]
pub struct Cell {
    /// The number of the place.
    pub at: u32,
    /// The count there, from 1 to 2^63 - 1 in a row.
    pub count: u64,
}

/// A sparse row of counts: cells with strictly rising places and counts from 1 to 2^63 - 1.
#[derive(Debug, Drop)]
pub struct Row {
    cells: Vec<Cell>,
}

impl Model for Row {
    ghost use Rattle.std.specs.Prelude.{List};
    ghost use Rattle.wide_sums.specs.declared.rows.Cell.{Cell};
    ghost use Rattle.wide_sums.specs.Cells.{IsRow};

    ghost Value = { List Cell };

    ghost view = { λ r. r.cells.items };

    ghost invariant = { λ r. IsRow r.cells.items };
}

impl Row {
    ghost use Rattle.wide_sums.specs.Cells.{IsRow, amount};

    /// The row without cells.
    pub fn new(alloc: Global) -> Row
        ensures { result ≡ [] }
    {
        Row {
            cells: Vec::new(alloc),
        }
    }

    /// Puts a cell at the end.
    ///
    /// Its place is greater than that of the last cell, and its count is from 1 to 2^63 - 1. After
    /// `Memory` the row is unchanged.
    pub fn push(&mut self, cell: Cell) -> Result<(), Memory>
        requires greater { All (λ c. c.at < cell.at) self.old }
        requires counted { 0 < cell.count }
        requires within { cell.count < 2 ^ 63 }
        ensures ok { OnOk result (self.new ≡ self.old ++ cell ∷ []) }
        ensures err { OnErr result (self.new ≡ self.old) }
    {
        self.cells.push(cell)?;
        Ok(())
    }

    /// The cells, by rising place.
    pub fn cells(&self) -> &[Cell]
        ensures cells { result.now ≡ self.now }
        ensures row { IsRow result.now }
    {
        self.cells.as_slice()
    }

    /// The count at the place `at`, 0 where there is no cell.
    pub fn count(&self, at: u32) -> u64
        ensures count { result ≡ amount at self.now }
        ensures within { result < 2 ^ 63 }
    {
        match self.cells.binary_search_by_key(&at, |cell| cell.at) {
            Ok(found) => self.cells[found].count,
            Err(_) => 0,
        }
    }
}
