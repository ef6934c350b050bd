//! What firing an instance does to a weighted sum of tokens.
ghost use Rattle.std.specs.Prelude.{◌≡◌, ◌^◌, ◌≤◌, ◌<◌, length, OnOk, OnErr, IfOk, All, Bool, pos, ◌+◌, ◌*ℤ◌, unsigned_abs};
ghost use Rattle.plain_model.specs.Sums.{sum_of};
ghost use Rattle.wide_sums.specs.Total.{joined, total_of, with_term};
ghost use Rattle.plain_judge.specs.Cells.{cell_terms, cell_term, cells_check, row_terms, signed};
ghost use Rattle.plain_model.specs.Obligations.{step_check};
ghost use Rattle.pt_net.specs.Markings.{IsInRange, counts_of};

use plain_model::Check;
use wide_sums::{Cell, Sum, Wide};

/// Adds a count times a coefficient, negated where it is taken.
pub fn add_term(sum: &mut Sum, coefficient: i64, count: u64, is_taken: bool) -> Result<(), Wide>
    ensures added { OnOk result (sum.new ≡ with_term sum.old (signed is_taken (coefficient *ℤ pos count))) }
    ensures wide { OnErr result (2 ^ 127 ≤ sum.old.size + unsigned_abs (signed is_taken (coefficient *ℤ pos count))) }
{
    if is_taken {
        return sum.add_product(-(coefficient as i128), count as i128);
    }
    sum.add_product(coefficient as i128, count as i128)
}

/// Adds the term of a cell.
fn add_cell(sum: &mut Sum, coefficients: &[i64], cell: Cell, is_taken: bool) -> Result<(), Wide>
    requires { cell.at < length coefficients.now }
    ensures added { OnOk result (sum.new ≡ with_term sum.old (cell_term is_taken coefficients.now cell)) }
    ensures wide { OnErr result (2 ^ 127 ≤ sum.old.size + unsigned_abs (cell_term is_taken coefficients.now cell)) }
{
    add_term(sum, coefficients[cell.at as usize], cell.count, is_taken)
}

/// Adds the terms of the cells.
fn add_cells(
    sum: &mut Sum,
    coefficients: &[i64],
    cells: &[Cell],
    is_taken: bool,
) -> Result<(), Wide>
    requires { All (λ c. c.at < length coefficients.now) cells.now }
    ensures added { OnOk result (sum.new ≡ joined sum.old (total_of (cell_terms is_taken coefficients.now cells.now))) }
    ensures wide { OnErr result (2 ^ 127 ≤ (joined sum.old (total_of (cell_terms is_taken coefficients.now cells.now))).size) }
{
    for cell in cells {
        match add_cell(sum, coefficients, *cell, is_taken) {
            Ok(()) => {}
            Err(Wide) => return Err(Wide),
        }
    }
    Ok(())
}

/// What taking the cells of one row and putting those of the other adds to the weighted sum.
fn total_of_cells(coefficients: &[i64], taken: &[Cell], put: &[Cell]) -> Result<i128, Wide>
    requires taken { All (λ c. c.at < length coefficients.now) taken.now }
    requires put { All (λ c. c.at < length coefficients.now) put.now }
    ensures value { IfOk result (λ value. value ≡ sum_of (row_terms coefficients.now taken.now put.now)) }
    ensures fits { OnOk result ((total_of (row_terms coefficients.now taken.now put.now)).size < 2 ^ 127) }
    ensures wide { OnErr result (2 ^ 127 ≤ (total_of (row_terms coefficients.now taken.now put.now)).size) }
{
    let mut sum = Sum::zero();
    match add_cells(&mut sum, coefficients, put, false) {
        Ok(()) => {}
        Err(Wide) => return Err(Wide),
    }
    match add_cells(&mut sum, coefficients, taken, true) {
        Ok(()) => {}
        Err(Wide) => return Err(Wide),
    }
    Ok(sum.value())
}

/// Whether taking the cells of one row and putting those of the other keeps the weighted sum.
fn check_cells(coefficients: &[i64], taken: &[Cell], put: &[Cell]) -> Check
    requires taken { All (λ c. c.at < length coefficients.now) taken.now }
    requires put { All (λ c. c.at < length coefficients.now) put.now }
    ensures { result ≡ cells_check coefficients.now taken.now put.now }
{
    match total_of_cells(coefficients, taken, put) {
        Err(Wide) => Check::Wide,
        Ok(0) => Check::True,
        Ok(_) => Check::False,
    }
}

/// Whether taking the counts of one row and putting those of the other keeps the weighted sum.
pub fn check_step(coefficients: &[i64], taken: &[Cell], put: &[Cell]) -> Check
    requires taken { IsInRange (length coefficients.now) taken.now }
    requires put { IsInRange (length coefficients.now) put.now }
    ensures { result ≡ step_check coefficients.now (counts_of (length coefficients.now) taken.now) (counts_of (length coefficients.now) put.now) }
{
    check_cells(coefficients, taken, put)
}
