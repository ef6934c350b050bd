ghost use Rattle.std.specs.Prelude.{◌≡◌, ◌-◌, ◌<◌, ◌^◌, length, min};
ghost use Rattle.bindings.specs.Listed.{digits, product};

/// How many bindings there are, where the variables have so many values. What is greater than 2^64 - 1 is told as 2^64 - 1.
pub fn count_of(sizes: &[u32]) -> u64
    ensures { result ≡ min (product sizes.now) (2 ^ 64 - 1) }
{
    let mut count: u64 = 1;
    for size in sizes {
        count = count.saturating_mul(*size as u64);
    }
    count
}

/// Makes the binding of a number, by one division for each variable. The number is below the product of the sizes, and
/// `indices` has one place for each variable, whatever stands there.
pub fn binding_at(sizes: &[u32], number: u32, indices: &mut [u32])
    requires many { length indices.old ≡ length sizes.now }
    requires within { number < product sizes.now }
    ensures { indices.new ≡ digits sizes.now number }
{
    let mut rest = number;
    let mut at = sizes.len();
    while at > 0 {
        at -= 1;
        indices[at] = rest % sizes[at];
        rest /= sizes[at];
    }
}
