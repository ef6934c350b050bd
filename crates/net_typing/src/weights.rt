ghost use Rattle.std.specs.Prelude.{◌≡◌, ◌+◌, ◌<◌, ◌≤◌, ◌^◌, All, IfOk, length, nat_lt, sum_by};
ghost use Rattle.net_typing.specs.Weights.{IsFirstOver, IsLight, gross_moved, gross_of_arc, key_of};

use crate::arcs::{ArcTyping, Ends};
use crate::inscribed::Inscribed;
use multiset_terms::gross;
use std::alloc::Global;
use std::collections::BTreeMap;
use wide_sums::Memory;

/// The greatest number of elements that arcs between the same place and transition may move in one direction.
const MOST: u64 = 0x7fff_ffff_ffff_ffff;

impl Ends {
    /// A number that tells what is joined.
    fn key(&self) -> u128
        ensures { result ≡ key_of self.now }
    {
        let pair = u128::from(self.transition) * 0x1_0000_0000 + u128::from(self.place);
        let side = if self.is_input { 1 } else { 0 };
        pair * 2 + side
    }
}

impl Inscribed {
    /// How many elements it has at most.
    fn gross(&self) -> u64
        ensures { result ≡ gross_moved self.now }
    {
        match self {
            Inscribed::Dots(number) => *number,
            Inscribed::Term(term) => gross(term),
        }
    }
}

/// Whether all arcs together move no more than those between one place and one transition may. So it is in nearly every net, and
/// then nothing has to be looked up.
fn are_few(arcs: &[ArcTyping]) -> bool
    requires { All IsLight arcs.now }
    ensures { result ≡ nat_lt (sum_by gross_of_arc arcs.now) (2 ^ 63) }
{
    let mut total: u64 = 0;
    for arc in arcs {
        let more = arc.moves.gross();
        if more > MOST - total {
            return false;
        }
        total += more;
    }
    true
}

/// The first arc that moves too much together with those in front of it that join the same, by its position.
fn first_heavy(alloc: Global, arcs: &[ArcTyping]) -> Result<Option<usize>, Memory>
    requires { All IsLight arcs.now }
    ensures { IfOk result (IsFirstOver arcs.now) }
{
    let mut weights: BTreeMap<u128, u64> = BTreeMap::new(alloc);
    for at in 0..arcs.len() {
        let arc = &arcs[at];
        let key = arc.ends.key();
        let more = arc.moves.gross();
        let before = weights.get(&key).copied().unwrap_or(0);
        if more > MOST - before {
            return Ok(Some(at));
        }
        weights.insert(key, before + more)?;
    }
    Ok(None)
}

/// The first arc that moves too much together with those in front of it that join the same, by its position.
pub fn first_overweight(alloc: Global, arcs: &[ArcTyping]) -> Result<Option<usize>, Memory>
    requires { All IsLight arcs.now }
    ensures { IfOk result (IsFirstOver arcs.now) }
{
    if are_few(arcs) {
        return Ok(None);
    }
    first_heavy(alloc, arcs)
}
