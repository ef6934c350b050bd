//! The residual of a `close` line: its coefficients and its constant, as exact sums.
ghost use Rattle.std.specs.Prelude.{◌≡◌, ◌^◌, ◌≤◌, ◌<◌, length, OnOk, OnErr, IfOk, pos, ◌*ℤ◌, int_le, replicate};
ghost use Rattle.plain_judge.specs.Residuals.{AddsPart, FitPart, IsPartWide};
ghost use Rattle.std.specs.List.{list_all};
ghost use Rattle.wide_sums.specs.Total.{with_term, zero_total};

use std::alloc::Global;
use wide_sums::{Memory, Sum, Wide};

/// A sum without terms for each place.
pub fn empty_sums(alloc: Global, places: usize) -> Result<Vec<Sum>, Memory>
    ensures { IfOk result (λ sums. sums.items ≡ replicate places zero_total) }
{
    Ok(vec![in alloc; Sum::zero(); places]?)
}

/// The coefficient 0 for each place.
pub fn empty_coefficients(alloc: Global, places: usize) -> Result<Vec<i64>, Memory>
    ensures { IfOk result (λ coefficients. coefficients.items ≡ replicate places (pos 0)) }
{
    Ok(vec![in alloc; 0i64; places]?)
}

/// Adds the product of a multiplier and a coefficient.
pub fn add_multiple(sum: &mut Sum, multiplier: i64, coefficient: i128) -> Result<(), Wide>
    ensures added { OnOk result (sum.new ≡ with_term sum.old (multiplier *ℤ coefficient)) }
    ensures fits { OnOk result ((with_term sum.old (multiplier *ℤ coefficient)).size < 2 ^ 127) }
    ensures wide { OnErr result (2 ^ 127 ≤ (with_term sum.old (multiplier *ℤ coefficient)).size) }
{
    sum.add_product(multiplier as i128, coefficient)
}

/// Adds to the coefficient of each place a term: the multiplier times the slack's coefficient.
pub fn add_part(sums: &mut [Sum], multiplier: i64, coefficients: &[i64]) -> Result<(), Wide>
    requires { length sums.old ≡ length coefficients.now }
    ensures added { OnOk result (AddsPart multiplier coefficients.now sums.old sums.new) }
    ensures fits { OnOk result (FitPart multiplier coefficients.now sums.old) }
    ensures wide { OnErr result (IsPartWide multiplier coefficients.now sums.old) }
{
    for place in 0..coefficients.len() {
        let mut sum = sums[place];
        match add_multiple(&mut sum, multiplier, coefficients[place] as i128) {
            Ok(()) => {}
            Err(Wide) => return Err(Wide),
        }
        sums[place] = sum;
    }
    Ok(())
}

/// Whether no sum is positive.
pub fn is_none_positive(sums: &[Sum]) -> bool
    ensures { result ≡ list_all (λ sum. int_le sum.value (pos 0)) sums.now }
{
    sums.iter().all(|sum| sum.value() <= 0)
}
