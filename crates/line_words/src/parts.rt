ghost use Rattle.std.specs.Prelude.{◌≡◌, IfOk};
ghost use Rattle.std.specs.Option.{option_copied, option_map};
ghost use Rattle.name_tables.specs.Grammar.{number_of};
ghost use Rattle.line_words.specs.Parts.{coefficient_of, factor_of, factor_on, id_of, index_of, instance_of, multiplier_of, place_of, weight_of};

use crate::items::{Factor, InstanceRef, Multiplier, PlaceRef, Weight};
use crate::words::cut_at;
use name_tables::{Name, is_id, read_number};
use std::alloc::Global;
use wide_sums::Memory;

/// The id that the word is.
pub fn read_id(alloc: Global, word: &[u8]) -> Result<Option<Name>, Memory>
    ensures { IfOk result (λ id. id ≡ id_of word.now) }
{
    if is_id(word) {
        Ok(Some(Name::new(alloc, word)?))
    } else {
        Ok(None)
    }
}

/// The number below 2^32 that the word writes without a sign.
pub fn read_index(word: &[u8]) -> Option<u32>
    ensures { result ≡ index_of word.now }
{
    match u32::try_from(read_number(word, false)?) {
        Ok(number) => Some(number),
        Err(_) => None,
    }
}

/// The place that the word writes, `P` or `P@K`; `None` where it writes none.
pub fn read_place(alloc: Global, word: &[u8]) -> Result<Option<PlaceRef>, Memory>
    ensures { IfOk result (λ place. place ≡ place_of word.now) }
{
    let (id, behind) = cut_at(word, b'@');
    let Some(place) = read_id(alloc, id)? else {
        return Ok(None);
    };
    let Some(digits) = behind else {
        return Ok(Some(PlaceRef {
            place,
            colour: None,
        }));
    };
    match read_index(digits) {
        Some(colour) => Ok(Some(PlaceRef {
            place,
            colour: Some(colour),
        })),
        None => Ok(None),
    }
}

/// The transition instance that the word writes, `T@K`; `None` where it writes none.
pub fn read_instance(alloc: Global, word: &[u8]) -> Result<Option<InstanceRef>, Memory>
    ensures { IfOk result (λ instance. instance ≡ instance_of word.now) }
{
    let (id, behind) = cut_at(word, b'@');
    let Some(transition) = read_id(alloc, id)? else {
        return Ok(None);
    };
    let Some(digits) = behind else {
        return Ok(None);
    };
    match read_index(digits) {
        Some(binding) => Ok(Some(InstanceRef {
            transition,
            binding,
        })),
        None => Ok(None),
    }
}

/// A coefficient, and what stands behind its star.
fn cut_coefficient(word: &[u8]) -> Option<(i64, &[u8])>
    ensures { option_map (λ c. (c.0, c.1.now)) result ≡ coefficient_of word.now }
{
    let (digits, behind) = cut_at(word, b'*');
    match (read_number(digits, true), behind) {
        (Some(value), Some(on)) => Some((value, on)),
        _ => None,
    }
}

/// A weight, `V*P` or `V*P@K`.
pub fn read_weight(alloc: Global, word: &[u8]) -> Result<Option<Weight>, Memory>
    ensures { IfOk result (λ weight. weight ≡ weight_of word.now) }
{
    let Some((value, on)) = cut_coefficient(word) else {
        return Ok(None);
    };
    match read_place(alloc, on)? {
        Some(place) => Ok(Some(Weight { value, place })),
        None => Ok(None),
    }
}

fn factor(alloc: Global, value: i64, on: &[u8]) -> Result<Option<Factor>, Memory>
    ensures { IfOk result (λ factor. factor ≡ factor_on value on.now) }
{
    match read_id(alloc, on)? {
        Some(fact) => Ok(Some(Factor { value, fact })),
        None => Ok(None),
    }
}

/// The factor that the word writes, `V*NAME`; `None` where it writes none.
pub fn read_factor(alloc: Global, word: &[u8]) -> Result<Option<Factor>, Memory>
    ensures { IfOk result (λ factor. factor ≡ factor_of word.now) }
{
    match cut_coefficient(word) {
        Some((value, on)) => factor(alloc, value, on),
        None => Ok(None),
    }
}

/// A multiplier, `V*NAME` or `V*@H`.
pub fn read_multiplier(alloc: Global, word: &[u8]) -> Result<Option<Multiplier>, Memory>
    ensures { IfOk result (λ multiplier. multiplier ≡ multiplier_of word.now) }
{
    let Some((value, on)) = cut_coefficient(word) else {
        return Ok(None);
    };
    if let [b'@', digits @ ..] = on {
        return Ok(match read_index(digits) {
            Some(number) => Some(Multiplier::Hypothesis { value, number }),
            None => None,
        });
    }
    match factor(alloc, value, on)? {
        Some(fact) => Ok(Some(Multiplier::Fact(fact))),
        None => Ok(None),
    }
}
