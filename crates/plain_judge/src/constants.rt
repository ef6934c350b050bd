//! The constant of the negated invariant.
ghost use Rattle.std.specs.Prelude.{◌≡◌, ◌^◌, ◌<◌, unsigned_abs};
ghost use Rattle.plain_model.specs.Forms.{hypothesis_slack, numbers};
ghost use Rattle.plain_model.specs.Sums.{sum_of};
ghost use Rattle.wide_sums.specs.Total.{total_of};

use plain_model::{Count, Property};

/// The number of a count, 0 for one that counts tokens.
fn number_of(count: &Count) -> i128
    ensures number { result ≡ sum_of (numbers count.now) }
    ensures size { (total_of (numbers count.now)).size < 2 ^ 64 }
    ensures within { unsigned_abs result < 2 ^ 64 }
{
    match count {
        Count::Number(number) => *number as i128,
        Count::Tokens(_) => 0,
    }
}

/// The constant of the negated invariant, which is never out of range.
pub fn constant_of_hypothesis(property: &Property) -> i128
    ensures value { result ≡ sum_of (hypothesis_slack property.now).constant }
    ensures fits { (total_of (hypothesis_slack property.now).constant).size < 2 ^ 127 }
{
    number_of(&property.left) - number_of(&property.right) - 1
}
