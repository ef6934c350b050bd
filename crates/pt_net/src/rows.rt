ghost use Rattle.std.specs.Prelude.{◌≡◌, ◌^◌, ◌<◌};
ghost use Rattle.wide_sums.specs.Cells.{IsRow, amount};

use wide_sums::Cell;

/// The count of a row at the place `at`, 0 where there is no cell, found by halving.
pub fn count_at(row: &[Cell], at: u32) -> u64
    requires row { IsRow row.now }
    ensures count { result ≡ amount at row.now }
    ensures within { result < 2 ^ 63 }
{
    match row.binary_search_by_key(&at, |cell| cell.at) {
        Ok(found) => row[found].count,
        Err(_) => 0,
    }
}
