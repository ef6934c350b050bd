ghost use Rattle.std.specs.Prelude.{◌≡◌, ℕ, ◌+◌, ◌<◌, ◌^◌, [], ◌∷◌, ◌++◌, length, sum_by, All, IfOk, OnOk};
ghost use Rattle.std.specs.Bool.{OnTrue};
ghost use Rattle.wide_sums.specs.Cells.{IsRow};
ghost use Rattle.plain_rows.specs.Entries.{AreInstances, HasRows, IsFillable, cell_of, with_cell};

use crate::entries::Entry;
use crate::faults::BuildFault;
use pt_net::{Instance, Side};
use std::alloc::Global;
use wide_sums::{Cell, Row};

/// One instance for each of so many transitions, without cells.
pub fn empty_instances(alloc: Global, count: u32) -> Result<Vec<Instance>, BuildFault>
    ensures len { IfOk result (λ instances. length instances.items ≡ count) }
    ensures empty { IfOk result (λ instances. AreInstances [] instances.items) }
{
    let mut instances = Vec::new(alloc);
    for transition in 0..count {
        instances.push(Instance {
            transition,
            binding: 0,
            pre: Row::new(alloc),
            post: Row::new(alloc),
        })?;
    }
    Ok(instances)
}

/// Whether the place is above all places of the row.
fn is_above(at: u32, row: &Row) -> bool
    ensures above { OnTrue result (All (λ c. c.at < at) row.now) }
    ensures row { IsRow row.now }
{
    match row.cells().last() {
        None => true,
        Some(last) => last.at < at,
    }
}

/// Puts a cell at the end of a row. `NotYet` comes where its place isn't above the last one.
fn push_last(row: &mut Row, cell: Cell) -> Result<(), BuildFault>
    requires counted { 0 < cell.count }
    requires within { cell.count < 2 ^ 63 }
    ensures pushed { OnOk result (row.new ≡ row.old ++ cell ∷ []) }
    ensures row { OnOk result (IsRow row.new) }
{
    if !is_above(cell.at, row) {
        return Err(BuildFault::NotYet);
    }
    row.push(cell)?;
    Ok(())
}

/// Puts the cell of an entry at the end of its row.
fn put(instance: &mut Instance, entry: Entry) -> Result<(), BuildFault>
    requires rows { HasRows instance.old }
    requires counted { 0 < entry.weight }
    requires within { entry.weight < 2 ^ 63 }
    ensures put { OnOk result (instance.new ≡ with_cell entry.side (cell_of entry) instance.old) }
    ensures rows { OnOk result (HasRows instance.new) }
{
    let cell = Cell {
        at: entry.place,
        count: entry.weight,
    };
    match entry.side {
        Side::Pre => push_last(&mut instance.pre, cell)?,
        Side::Post => push_last(&mut instance.post, cell)?,
    }
    Ok(())
}

/// Puts the cells of all entries into the rows, one after the other. `NotYet` comes where a row
/// wouldn't rise.
pub fn fill(instances: &mut [Instance], entries: &[Entry]) -> Result<(), BuildFault>
    requires empty { AreInstances [] instances.old }
    requires entries { All (IsFillable (length instances.old)) entries.now }
    ensures filled { OnOk result (AreInstances entries.now instances.new) }
    ensures rows { OnOk result (All HasRows instances.new) }
    ensures cells { OnOk result (sum_by (λ t. length t.pre + length t.post) instances.new ≡ length entries.now) }
{
    for entry in entries {
        put(&mut instances[entry.transition as usize], *entry)?;
    }
    Ok(())
}
