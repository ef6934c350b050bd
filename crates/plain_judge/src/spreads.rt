//! Coefficients as a list with one number per place.
ghost use Rattle.std.specs.Prelude.{◌≡◌, ◌<◌, length, map, pos, replicate, ◌*ℤ◌, All, Contains, OnOk};
ghost use Rattle.plain_judge.specs.Coefficients.{Raises, raised};
ghost use Rattle.plain_model.specs.Forms.{hypothesis_slack, times_in, times_listed, weight_on};
ghost use Rattle.plain_model.specs.Plain.{AreDistinct, IsPlainCount};

use crate::faults::NotYet;
use crate::numbered::NumberedFlow;
use name_tables::Name;
use plain_model::{Count, Property};
use plain_rows::Numbers;

// 2^63 - 1, the largest number of a count.
const MAX_NUMBER: u64 = 9_223_372_036_854_775_807;

/// Adds a value to the coefficient of one place.
fn raise(coefficients: &mut [i64], place: usize, value: i64) -> Result<(), NotYet>
    requires { place < length coefficients.old }
    ensures { OnOk result (coefficients.new ≡ raised coefficients.old place value) }
{
    match coefficients[place].checked_add(value) {
        Some(sum) => {
            coefficients[place] = sum;
            Ok(())
        }
        None => Err(NotYet),
    }
}

/// Adds to the coefficient of each place what the weights of the flow say of it.
fn add_weights(flow: &NumberedFlow<'_>, coefficients: &mut [i64]) -> Result<(), NotYet>
    requires { length coefficients.old ≡ length flow.now.ids }
    ensures { OnOk result (Raises flow.now.ids (weight_on flow.now.flow.weights) coefficients.old coefficients.new) }
{
    let weights = flow.weights();
    let places = flow.places();
    for at in 0..weights.len() {
        raise(coefficients, places[at] as usize, weights[at].value)?;
    }
    Ok(())
}

/// Adds a value to the coefficient of each listed place, as often as it is listed.
fn add_listed(
    ids: &Numbers<'_>,
    listed: &[Name],
    value: i64,
    coefficients: &mut [i64],
) -> Result<(), NotYet>
    requires distinct { AreDistinct ids.now }
    requires long { length coefficients.old ≡ length ids.now }
    ensures known { OnOk result (All (Contains ids.now) listed.now) }
    ensures raised { OnOk result (Raises ids.now (λ id. value *ℤ pos (times_in listed.now id)) coefficients.old coefficients.new) }
{
    let mut guess = 0u32;
    for name in listed {
        match ids.find_near(name.bytes(), guess) {
            Some(place) => {
                raise(coefficients, place as usize, value)?;
                guess = place.wrapping_add(1);
            }
            None => return Err(NotYet),
        }
    }
    Ok(())
}

/// Adds a value to the coefficient of each place that the count lists. `NotYet` comes where its
/// number is out of range, where it lists none, or one that isn't there.
fn add_count(
    ids: &Numbers<'_>,
    count: &Count,
    value: i64,
    coefficients: &mut [i64],
) -> Result<(), NotYet>
    requires distinct { AreDistinct ids.now }
    requires long { length coefficients.old ≡ length ids.now }
    ensures plain { OnOk result (IsPlainCount ids.now count.now) }
    ensures raised { OnOk result (Raises ids.now (λ id. value *ℤ pos (times_listed count.now id)) coefficients.old coefficients.new) }
{
    match count {
        Count::Number(number) => {
            if *number > MAX_NUMBER {
                return Err(NotYet);
            }
            Ok(())
        }
        Count::Tokens(listed) => {
            if listed.is_empty() {
                return Err(NotYet);
            }
            add_listed(ids, listed.as_slice(), value, coefficients)?;
            Ok(())
        }
    }
}

/// Adds the weights of the flow to coefficients that all are 0.
pub fn spread_on_zeros(flow: &NumberedFlow<'_>, coefficients: &mut [i64]) -> Result<(), NotYet>
    requires { coefficients.old ≡ replicate (length flow.now.ids) (pos 0) }
    ensures { OnOk result (coefficients.new ≡ map (weight_on flow.now.flow.weights) flow.now.ids) }
{
    add_weights(flow, coefficients)?;
    Ok(())
}

/// Writes 0 at the places of the flow, so that all coefficients are 0 again.
pub fn clear_weights(flow: &NumberedFlow<'_>, coefficients: &mut [i64])
    requires { coefficients.old ≡ map (weight_on flow.now.flow.weights) flow.now.ids }
    ensures { coefficients.new ≡ replicate (length flow.now.ids) (pos 0) }
{
    let places = flow.places();
    for at in 0..places.len() {
        coefficients[places[at] as usize] = 0;
    }
}

/// Adds the coefficients of the negated invariant to coefficients that all are 0.
pub fn spread_hypothesis(
    ids: &Numbers<'_>,
    property: &Property,
    coefficients: &mut [i64],
) -> Result<(), NotYet>
    requires distinct { AreDistinct ids.now }
    requires zeros { coefficients.old ≡ replicate (length ids.now) (pos 0) }
    ensures left { OnOk result (IsPlainCount ids.now property.now.left) }
    ensures right { OnOk result (IsPlainCount ids.now property.now.right) }
    ensures spread { OnOk result (coefficients.new ≡ map (hypothesis_slack property.now).coefficient ids.now) }
{
    add_count(ids, &property.left, 1, coefficients)?;
    add_count(ids, &property.right, -1, coefficients)?;
    Ok(())
}
