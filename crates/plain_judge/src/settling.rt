//! Adds the multiple of a flow to the residual, place by place of its weights.
ghost use Rattle.std.specs.Prelude.{◌≡◌, ◌^◌, ◌≤◌, ◌<◌, length, map, OnOk, OnErr, IfOk, neg_ℤ, pos, replicate, slice_index_or, slice_set, ◌*ℤ◌};
ghost use Rattle.plain_judge.specs.Residuals.{AddsPart, AreInRange, FitPart, IsSettledWide, markings};
ghost use Rattle.plain_model.specs.Forms.{weight_on};
ghost use Rattle.plain_model.specs.Sums.{products, sum_of};
ghost use Rattle.wide_sums.specs.Total.{total_of, with_term, zero_total};

use crate::numbered::NumberedFlow;
use crate::residuals::add_multiple;
use crate::steps::add_term;
use plain_model::Place;
use wide_sums::{Sum, Wide};

/// Adds the product of a multiplier and a coefficient to the sum of a place.
fn add_at(sums: &mut [Sum], place: usize, multiplier: i64, coefficient: i64) -> Result<(), Wide>
    requires { place < length sums.old }
    ensures added { OnOk result (sums.new ≡ slice_set sums.old place (with_term (slice_index_or sums.old place zero_total) (multiplier *ℤ coefficient))) }
    ensures fits { OnOk result ((with_term (slice_index_or sums.old place zero_total) (multiplier *ℤ coefficient)).size < 2 ^ 127) }
    ensures wide { OnErr result (2 ^ 127 ≤ (with_term (slice_index_or sums.old place zero_total) (multiplier *ℤ coefficient)).size) }
{
    let mut sum = sums[place];
    match add_multiple(&mut sum, multiplier, coefficient as i128) {
        Ok(()) => {}
        Err(Wide) => return Err(Wide),
    }
    sums[place] = sum;
    Ok(())
}

/// Takes the coefficients of the flow away again: adds their multiples to the sums, and gives the
/// constant of the flow, minus its value at the initial marking.
///
/// A place that stands on the weights twice counts once, since its coefficient is 0 from then on.
pub fn settle_weights(
    flow: &NumberedFlow<'_>,
    places: &[Place],
    multiplier: i64,
    coefficients: &mut [i64],
    sums: &mut [Sum],
) -> Result<i128, Wide>
    requires places { length places.now ≡ length flow.now.ids }
    requires spread { coefficients.old ≡ map (weight_on flow.now.flow.weights) flow.now.ids }
    requires sums { length sums.old ≡ length flow.now.ids }
    requires in_range { AreInRange (length flow.now.ids) sums.old }
    ensures zeros { OnOk result (coefficients.new ≡ replicate (length flow.now.ids) (pos 0)) }
    ensures added { OnOk result (AddsPart multiplier coefficients.old sums.old sums.new) }
    ensures fits { OnOk result (FitPart multiplier coefficients.old sums.old) }
    ensures value { IfOk result (λ value. value ≡ sum_of (map neg_ℤ (products coefficients.old (markings places.now)))) }
    ensures constant { OnOk result ((total_of (map neg_ℤ (products coefficients.old (markings places.now)))).size < 2 ^ 127) }
    ensures wide { OnErr result (IsSettledWide multiplier coefficients.old sums.old (map neg_ℤ (products coefficients.old (markings places.now)))) }
{
    let mut constant = Sum::zero();
    let numbers = flow.places();
    for at in 0..numbers.len() {
        let place = numbers[at] as usize;
        let coefficient = coefficients[place];
        match add_at(sums, place, multiplier, coefficient) {
            Ok(()) => {}
            Err(Wide) => return Err(Wide),
        }
        match add_term(&mut constant, coefficient, places[place].marking, true) {
            Ok(()) => {}
            Err(Wide) => return Err(Wide),
        }
        coefficients[place] = 0;
    }
    Ok(constant.value())
}
