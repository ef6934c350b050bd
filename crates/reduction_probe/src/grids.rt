ghost use Rattle.std.specs.Prelude.{◌≡◌, ◌<◌, ◌+◌, ◌^◌, length, All, IfOk, OnOk};
ghost use Rattle.pt_net.specs.Systems.{size};
ghost use Rattle.reduction_examples.specs.Drafts.{IsDraft};

use pt_net::PtNet;
use reduction_examples::Draft;
use std::alloc::Global;
use wide_sums::{Cell, Memory};

fn cell(at: u32) -> Cell {
    Cell { at, count: 1 }
}

// The place to the right, and the one below; the last ones lead to the first.
fn right(place: u32, side: u32) -> u32
    requires { 0 < side }
{
    if (place % side) == side - 1 {
        return place.wrapping_sub(side - 1);
    }
    place.wrapping_add(1)
}

fn below(place: u32, side: u32) -> u32 {
    let count = side.wrapping_mul(side);
    let next = place.wrapping_add(side);
    if next < count {
        next
    } else {
        next.wrapping_sub(count)
    }
}

// Adds the instance of a kind at a place: to the right, below, to the right beside a constant place,
// or to the right with an input that stays empty.
fn add(draft: &mut Draft, alloc: Global, kind: u32, place: u32, side: u32) -> Result<(), Memory>
    requires few { size draft.old.builder < 2 ^ 30 }
    requires side { 0 < side }
    requires draft { IsDraft draft.old.places draft.old.builder }
    ensures draft { OnOk result (IsDraft draft.new.places draft.new.builder) }
    ensures more { OnOk result (size draft.new.builder ≡ size draft.old.builder + 1) }
{
    let constant = cell(side.wrapping_mul(side));
    let empty = cell(constant.at.wrapping_add(1));
    let from = cell(place);
    let next = cell(right(place, side));
    match kind {
        0 => draft.add(alloc, &[from], &[next])?,
        1 => draft.add(alloc, &[from], &[cell(below(place, side))])?,
        2 => draft.add(alloc, &[from, constant], &[next, constant])?,
        _ => draft.add(alloc, &[from, empty], &[next])?,
    }
    Ok(())
}

// The initial marking: a token at the first place of the grid, and one at the constant place.
fn initial(alloc: Global, count: u32) -> Result<Vec<u64>, Memory>
    requires { count < 2 ^ 21 }
    ensures few { IfOk result (λ counts. length counts.items < 2 ^ 32) }
    ensures counts { IfOk result (λ counts. All (λ k. k < 2 ^ 63) counts.items) }
{
    let mut counts = vec![in alloc; 0; count as usize + 2]?;
    counts[0] = 1;
    counts[count as usize] = 1;
    Ok(counts)
}

/// A grid of so many places on each side, whose last ones lead to the first, with four instances at
/// each place: one to the right, one below, one that equals the first but for a constant place, and
/// a dead one.
pub fn grid(alloc: Global, side: u32, count: u32) -> Result<PtNet, Memory>
    requires side { 0 < side }
    requires some { 0 < count }
    requires few { count < 2 ^ 21 }
{
    let counts = initial(alloc, count)?;
    let mut draft = Draft::new(alloc, counts, count as usize * 4)?;
    for instance in 0..count * 4 {
        add(&mut draft, alloc, instance / count, instance % count, side)?;
    }
    Ok(draft.net())
}
