ghost use Rattle.std.specs.Prelude.{◌≡◌, ℕ, ◌+◌, ◌-◌, ◌*◌, ◌<◌, ◌≤◌, ◌^◌, length, All, OnOk, IfSome, IfNone};
ghost use Rattle.wide_sums.specs.Cells.{IsRow, amount};
ghost use Rattle.multiset_terms.specs.Buffers.{Gains};
ghost use Rattle.multiset_terms.specs.declared.faults.EvalFault.TheVariants as fault;
ghost use Rattle.multiset_terms.specs.Rows.{AreBelow, AreRead, IsShort, IsTakenOff, IsWithin, total};

use crate::buffers::{Scale, push};
use crate::faults::EvalFault;
use wide_sums::Cell;

/// Appends what a row has more than another. `Negative` comes exactly where it has less at some place.
pub fn push_difference(
    whole: &[Cell],
    part: &[Cell],
    scale: Scale,
    cells: &mut Vec<Cell>,
) -> Result<(), EvalFault>
    requires whole { IsRow whole.now }
    requires part { IsRow part.now }
    requires room { All (λ c. scale.offset + c.at < 2 ^ 32) whole.now }
    requires fits { scale.times * total whole.now < 2 ^ 63 }
    ensures enough { OnOk result (IsWithin part.now whole.now) }
    ensures gains { OnOk result ((size : ℕ) → AreBelow size whole.now → Gains scale size (λ q. amount q whole.now - amount q part.now) (total whole.now) cells.old.items cells.new.items) }
    ensures negative { result ≡ Err EvalFault.Negative → IsShort part.now whole.now }
{
    let mut taken = 0;
    for at in 0..whole.len() {
        let Some((less, next)) = taken_off(whole, at, part, taken) else {
            return Err(EvalFault::Negative);
        };
        push(cells, scale, whole[at].at, whole[at].count - less)?;
        taken = next;
    }
    if taken < part.len() {
        return Err(EvalFault::Negative);
    }
    Ok(())
}

/// How much is taken off the cell at `at`, where the first `taken` cells of the part were taken off those in front of it, and how
/// many are then taken; None where the part has more than the whole at some place.
fn taken_off(whole: &[Cell], at: usize, part: &[Cell], taken: usize) -> Option<(u64, usize)>
    requires whole { IsRow whole.now }
    requires part { IsRow part.now }
    requires within { at < length whole.now }
    requires read { AreRead whole.now part.now at taken }
    ensures taken { IfSome result (λ step. IsTakenOff whole.now part.now at taken step.0 step.1) }
    ensures short { IfNone result (IsShort part.now whole.now) }
{
    let cell = whole[at];
    if taken == part.len() {
        return Some((0, taken));
    }
    let other = part[taken];
    if cell.at < other.at {
        return Some((0, taken));
    }
    if other.at == cell.at && other.count <= cell.count {
        return Some((other.count, taken + 1));
    }
    None
}
