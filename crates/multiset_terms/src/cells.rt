ghost use Rattle.std.specs.Prelude.{◌≡◌, ℕ, ◌+◌, ◌-◌, ◌*◌, ◌/◌, ◌%◌, ◌<◌, ◌≤◌, ◌^◌, IfOk, OnOk, nat_eq};
ghost use Rattle.wide_sums.specs.Cells.{IsRow, amount, count_at};
ghost use Rattle.multiset_terms.specs.Rows.{AreBelow, AreFronts, IsRowOf, total};
ghost use Rattle.multiset_terms.specs.Trees.{is_between, once};

use std::alloc::Global;
use wide_sums::{Cell, Memory, Row};

/// One element of this index, which is one of `size`.
pub fn once_at(alloc: Global, index: u32) -> Result<Row, Memory>
    ensures { IfOk result (λ row. (size : ℕ) → index < size → IsRowOf size 1 (λ p. once (nat_eq index p)) row) }
{
    let mut row = Row::new(alloc);
    row.push(Cell {
        at: index,
        count: 1,
    })?;
    Ok(row)
}

/// The choices of a further component behind each front: the indices from `from` to before `to` of a sort of so many colours.
pub fn extended(
    alloc: Global,
    fronts: &[Cell],
    size: u32,
    from: u32,
    to: u32,
) -> Result<Row, Memory>
    requires row { IsRow fronts.now }
    requires order { from ≤ to }
    requires choice { to ≤ size }
    requires room { AreFronts size fronts.now }
    ensures counts { IfOk result (λ row. (p : ℕ) → amount p row ≡ amount (p / size) fronts.now * once (is_between from to (p % size))) }
    ensures total { IfOk result (λ row. total row ≡ total fronts.now * (to - from)) }
    ensures below { IfOk result (λ row. (lead : ℕ) → AreBelow lead fronts.now → AreBelow (lead * size) row) }
{
    let mut row = Row::new(alloc);
    for front in fronts {
        extend(&mut row, *front, size, from, to)?;
    }
    Ok(row)
}

fn extend(row: &mut Row, front: Cell, size: u32, from: u32, to: u32) -> Result<(), Memory>
    requires before { AreBelow (front.at * size) row.old }
    requires some { 0 < front.count }
    requires fits { front.count < 2 ^ 63 }
    requires order { from ≤ to }
    requires choice { to ≤ size }
    requires room { front.at * size + size ≤ 2 ^ 20 }
    ensures counts { OnOk result ((p : ℕ) → amount p row.new ≡ amount p row.old + count_at (p / size) front * once (is_between from to (p % size))) }
    ensures total { OnOk result (total row.new ≡ total row.old + front.count * (to - from)) }
    ensures below { OnOk result (AreBelow (front.at * size + size) row.new) }
{
    for choice in from..to {
        row.push(Cell {
            at: front.at * size + choice,
            count: front.count,
        })?;
    }
    Ok(())
}
