ghost use Rattle.std.specs.Prelude.{◌≡◌, ◌+◌, ◌≤◌, ◌<◌, ◌^◌, ◌∷◌, ℕ, List, IfOk, MatchBool, decimal, map, sum_by};
ghost use Rattle.std.specs.Bool.{OnTrue};
ghost use Rattle.std.specs.Str.{bytes_eq};
ghost use Rattle.indexmap.specs.IndexMap.{get_by};
ghost use Rattle.cert_lines.specs.Sums.{are_past, factor_amount, multiplier_amount, or_zero, share, weight_amount};

use indexmap::IndexMap;
use itoa::Buffer;
use line_words::{Factor, Multiplier, Weight};
use name_tables::Name;
use std::alloc::Global;
use wide_sums::Memory;

/// The greatest sum of absolute values on one name.
const MOST: u64 = 9_223_372_036_854_775_807;

/// A value that a line gives with a coefficient.
pub trait Valued: Sized + Drop {
    ghost amount: { Self → List ℕ × ℕ };

    /// The absolute value of the coefficient.
    fn size(&self) -> u64
        ensures { result ≡ (amount self.now).1 };

    /// Whether the absolute values on one name add up past 2^63 - 1, added up name by name.
    fn sums_are_past(alloc: Global, items: &[Self]) -> Result<bool, Memory>
        ensures { IfOk result (λ past. past ≡ are_past (map amount items.now)) };
}

impl Valued for Weight {
    ghost amount = { weight_amount };

    fn size(&self) -> u64 {
        self.value.unsigned_abs()
    }

    fn sums_are_past(alloc: Global, items: &[Weight]) -> Result<bool, Memory> {
        is_past_by_name(alloc, items)
    }
}

impl Valued for Factor {
    ghost amount = { factor_amount };

    fn size(&self) -> u64 {
        self.value.unsigned_abs()
    }

    fn sums_are_past(alloc: Global, items: &[Factor]) -> Result<bool, Memory> {
        is_past_by_name(alloc, items)
    }
}

impl Valued for Multiplier {
    ghost amount = { multiplier_amount };

    fn size(&self) -> u64 {
        match self {
            Multiplier::Fact(factor) => factor.value.unsigned_abs(),
            Multiplier::Hypothesis { value, .. } => value.unsigned_abs(),
        }
    }

    fn sums_are_past(alloc: Global, items: &[Multiplier]) -> Result<bool, Memory> {
        let amounts = amounts_of(alloc, items)?;
        is_past_by_name(alloc, amounts.as_slice())
    }
}

/// A value that has the name of what it stands on.
trait Named: Sized + Drop {
    ghost named_amount: { Self → List ℕ × ℕ };

    /// What it stands on, and the absolute value of its coefficient.
    fn amount(&self) -> (&[u8], u64)
        ensures { (result.0.now, result.1) ≡ named_amount self.now };
}

impl Named for Weight {
    ghost named_amount = { weight_amount };

    fn amount(&self) -> (&[u8], u64) {
        (self.place.place.bytes(), self.value.unsigned_abs())
    }
}

impl Named for Factor {
    ghost named_amount = { factor_amount };

    fn amount(&self) -> (&[u8], u64) {
        (self.fact.bytes(), self.value.unsigned_abs())
    }
}

/// What a multiplier stands on, with a name made for each hypothesis, and its absolute value.
#[derive(Drop)]
struct Amount {
    name: Name,
    size: u64,
}

impl Named for Amount {
    ghost named_amount = { λ amount. (amount.name, amount.size) };

    fn amount(&self) -> (&[u8], u64) {
        (self.name.bytes(), self.size)
    }
}

fn amounts_of(alloc: Global, multipliers: &[Multiplier]) -> Result<Vec<Amount>, Memory>
    ensures { IfOk result (λ amounts.
        map (λ amount. (amount.name, amount.size)) amounts.items ≡ map multiplier_amount multipliers.now) }
{
    let mut amounts = Vec::with_capacity(alloc, multipliers.len())?;
    for multiplier in multipliers {
        amounts.push(amount_of(alloc, multiplier)?)?;
    }
    Ok(amounts)
}

fn amount_of(alloc: Global, multiplier: &Multiplier) -> Result<Amount, Memory>
    ensures { IfOk result (λ amount. (amount.name, amount.size) ≡ multiplier_amount multiplier.now) }
{
    let name = match multiplier {
        Multiplier::Fact(factor) => factor.fact.copy(alloc)?,
        Multiplier::Hypothesis { number, .. } => hypothesis_name(alloc, *number)?,
    };
    Ok(Amount {
        name,
        size: multiplier.size(),
    })
}

fn hypothesis_name(alloc: Global, number: u32) -> Result<Name, Memory>
    ensures { IfOk result (λ name. name ≡ 64 ∷ decimal number) }
{
    let mut name = Name::empty(alloc);
    name.push(b'@')?;
    name.append(Buffer::new().format(number).as_bytes())?;
    Ok(name)
}

/// Whether the absolute values on one name add up past 2^63 - 1.
pub fn is_past<T: Valued>(alloc: Global, items: &[T]) -> Result<bool, Memory>
    ensures { IfOk result (λ past. past ≡ are_past (map T.amount items.now)) }
{
    if are_few(items) {
        Ok(false)
    } else {
        T::sums_are_past(alloc, items)
    }
}

/// Whether all absolute values together add up to 2^63 - 1 at most.
fn are_few<T: Valued>(items: &[T]) -> bool
    ensures { OnTrue result (sum_by (λ x. x.1) (map T.amount items.now) < 2 ^ 63) }
{
    let mut total = 0;
    for item in items {
        let size = item.size();
        if size > MOST - total {
            return false;
        }
        total += size;
    }
    true
}

fn is_past_by_name<T: Named>(alloc: Global, items: &[T]) -> Result<bool, Memory>
    ensures { IfOk result (λ past. past ≡ are_past (map T.named_amount items.now)) }
{
    let mut sums = IndexMap::with_capacity(alloc, items.len())?;
    for item in items {
        let pair = item.amount();
        if !add_to(&mut sums, pair.0, pair.1)? {
            return Ok(true);
        }
    }
    Ok(false)
}

/// Adds an absolute value to the sum on its name; `false` where that would pass 2^63 - 1.
fn add_to<'a>(sums: &mut IndexMap<&'a [u8], u64>, name: &'a [u8], size: u64) -> Result<bool, Memory>
    requires { (q : List ℕ) → or_zero (get_by (λ key. bytes_eq q key.now) sums.old) < 2 ^ 63 }
    ensures { IfOk result (λ added. MatchBool added
        ((q : List ℕ) → (or_zero (get_by (λ key. bytes_eq q key.now) sums.new) ≡ or_zero (get_by (λ key. bytes_eq q key.now) sums.old) + share q (name.now, size))
        × (or_zero (get_by (λ key. bytes_eq q key.now) sums.new) < 2 ^ 63))
        (2 ^ 63 ≤ or_zero (get_by (λ key. bytes_eq name.now key.now) sums.old) + size)) }
{
    if size > MOST {
        return Ok(false);
    }
    // Most names come once.
    let Some(before) = sums.insert(name, size)? else {
        return Ok(true);
    };
    if size > MOST - before {
        return Ok(false);
    }
    sums.insert(name, before + size)?;
    Ok(true)
}
