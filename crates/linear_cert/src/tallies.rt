//! Sums that are none once they are out of range.
ghost use Rattle.std.specs.Prelude.{◌≡◌, ◌<◌, All, pos, map, length, ◌*ℤ◌, slice_index, ℤ, List};
ghost use Rattle.cert_model.specs.Sums.{judged};
ghost use Rattle.linear_cert.specs.Fitting.{not_negative, plus, plus_all, signed};
ghost use Rattle.linear_cert.specs.Checks.{cell_term, weighted};
ghost use Rattle.linear_cert.specs.Sparse.{coefficient_in};

use crate::forms::{Form, Term};
use cert_model::Check;
use wide_sums::{Cell, Sum, Wide};

/// The sum with the exact product as one more term.
pub(crate) fn plus(sum: Option<Sum>, a: i128, b: i128) -> Option<Sum>
    ensures { result ≡ plus sum (a *ℤ b) }
{
    let mut sum = sum?;
    match sum.add_product(a, b) {
        Ok(()) => Some(sum),
        Err(Wide) => None,
    }
}

/// The sum with one more term.
pub(crate) fn plus_term(sum: Option<Sum>, term: i128) -> Option<Sum>
    ensures { result ≡ plus sum term }
{
    let mut sum = sum?;
    match sum.add(term) {
        Ok(()) => Some(sum),
        Err(Wide) => None,
    }
}

/// Whether the sum isn't negative.
pub(crate) fn is_not_negative(sum: Option<Sum>) -> Check
    ensures { result ≡ not_negative sum }
{
    match sum {
        None => Check::Wide,
        Some(sum) if sum.value() >= 0 => Check::True,
        Some(_) => Check::False,
    }
}

// The sum with the coefficient times the count, negated where it is taken.
fn plus_count(sum: Option<Sum>, coefficient: i64, count: u64, is_taken: bool) -> Option<Sum>
    ensures { result ≡ plus sum (signed is_taken (coefficient *ℤ pos count)) }
{
    if is_taken {
        return plus(sum, -(coefficient as i128), count as i128);
    }
    plus(sum, coefficient as i128, count as i128)
}

// The sum with the term of a cell.
fn plus_cell(sum: Option<Sum>, form: &Form, cell: Cell, is_taken: bool) -> Option<Sum>
    ensures { result ≡ plus sum (cell_term is_taken (coefficient_in form.now.terms) cell) }
{
    plus_count(sum, form.coefficient(cell.at), cell.count, is_taken)
}

// The sum with the coefficient of a term times a count.
fn plus_product(sum: Option<Sum>, term: Term, count: u64) -> Option<Sum>
    ensures { result ≡ plus sum (term.value *ℤ pos count) }
{
    plus_count(sum, term.value, count, false)
}

/// The sum with the terms of a row: each count times the form's coefficient, negated where it is
/// taken.
pub(crate) fn plus_row(
    mut sum: Option<Sum>,
    form: &Form,
    cells: &[Cell],
    is_taken: bool,
) -> Option<Sum>
    ensures { result ≡ plus_all sum (map (cell_term is_taken (coefficient_in form.now.terms)) cells.now) }
{
    for cell in cells {
        sum = plus_cell(sum, form, *cell, is_taken);
    }
    sum
}

/// The sum with each term's coefficient times the count of its place.
pub(crate) fn plus_weighted(mut sum: Option<Sum>, terms: &[Term], counts: &[u64]) -> Option<Sum>
    requires { All (λ t. t.place < length counts.now) terms.now }
    ensures { result ≡ plus_all sum (map (weighted (λ p. slice_index counts.now p)) terms.now) }
{
    for term in terms {
        sum = plus_product(sum, *term, counts[term.place as usize]);
    }
    sum
}
