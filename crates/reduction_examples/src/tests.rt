ghost use Rattle.std.specs.Prelude.{◌≡◌, ◌+◌, ◌<◌, ◌^◌, length, All, IfOk};
ghost use Rattle.pt_net.specs.Systems.{places, size};
ghost use Rattle.reductions.specs.Slots.{CanBeGiven};

use crate::Draft;
use pt_net::{Packed, PtNet, Side};
use reductions::{Fate, Reduced, Slot, reduce};
use std::alloc::Global;
use std::marker::Brand;
use std::sync::ledger::{Blank, Ledger};
use std::test::Fail;
use trap_siphon::{InstanceSet, PlaceSet, is_siphon, marked_support, trap_true};
use wide_sums::{Cell, Memory, Steps};

// 2^63 - 1, the largest count.
const MOST: u64 = 9_223_372_036_854_775_807;

// No cell.
const NONE: Cell = Cell { at: 0, count: 0 };

fn cell(at: u32, count: u64) -> Cell {
    Cell { at, count }
}

// The net of these counts, and of instances with two inputs and two outputs each.
fn net_of(alloc: Global, counts: &[u64], rows: &[[Cell; 4]]) -> Result<PtNet, Memory>
    requires low { All (λ k. k < 2 ^ 63) counts.now }
    requires few { length counts.now < 2 ^ 32 }
    requires few_rows { length rows.now < 2 ^ 30 }
    ensures places { IfOk result (λ net. places net ≡ length counts.now) }
    ensures size { IfOk result (λ net. size net ≡ length rows.now) }
{
    let initial = Vec::from_slice(alloc, counts)?;
    let mut draft = Draft::new(alloc, initial, rows.len())?;
    for row in rows {
        draft.add(alloc, &[row[0], row[1]], &[row[2], row[3]])?;
    }
    Ok(draft.net())
}

// The reduction of a net, counted from 0.
fn reduced<L: Ledger>(blank: Blank, alloc: Global, net: &PtNet) -> Result<Reduced, Memory>
    requires name { blank.name ≡ L.name }
    requires parts { blank.parts ≡ L.parts }
    requires some { blank.parts ≡ 1 }
    ensures given { IfOk result (λ found. CanBeGiven found.slots.items found.fates.items found.net found.rounds) }
    ensures slots { IfOk result (λ found. length found.slots.items ≡ places net.now) }
{
    let mut steps = Steps::start(blank.open::<L>());
    let found = reduce(alloc, net, &mut steps)?;
    Ok(found)
}

// What can be marked from the initial marking, counted from 0.
fn closed<L: Ledger>(blank: Blank, alloc: Global, net: &PtNet) -> Result<PlaceSet, Memory>
    requires name { blank.name ≡ L.name }
    requires parts { blank.parts ≡ L.parts }
    requires some { blank.parts ≡ 1 }
    ensures { IfOk result (λ set. length set ≡ places net.now) }
{
    let mut steps = Steps::start(blank.open::<L>());
    let packed = Packed::of(alloc, net)?;
    let active = InstanceSet::all(alloc, net)?;
    let start = net.start(alloc)?;
    let set = marked_support(alloc, net, &packed, &active, &start, &mut steps)?;
    Ok(set)
}

// Whether the reduction of the net has these fates after so many rounds.
fn gives(alloc: Global, net: &PtNet, fates: &[Fate], rounds: u32) -> Result<bool, Memory> {
    let found = reduced::<Brand>(Blank::new(1), alloc, net)?;
    Ok(found.fates.as_slice() == fates && found.rounds == rounds)
}

#[test]
fn instances_have_their_fates(rt: HostRuntime) -> Result<(), Fail> {
    let alloc = rt.alloc();
    let t = [cell(0, 1), NONE, cell(1, 1), NONE];
    let u = [cell(1, 1), NONE, cell(0, 1), NONE];
    let both = [Fate::Kept(0), Fate::Kept(1)];
    let ring = net_of(alloc, &[1, 0], &[t, u])?;
    assert!(rt; gives(alloc, &ring, both.as_slice(), 1)?);
    let z = [cell(2, 1), NONE, cell(1, 1), cell(3, 1)];
    let w = [cell(3, 1), NONE, cell(2, 1), NONE];
    let siphon = net_of(alloc, &[1, 0, 0, 0], &[t, u, z, w])?;
    let dead = [Fate::Kept(0), Fate::Kept(1), Fate::Dead, Fate::Dead];
    assert!(rt; gives(alloc, &siphon, dead.as_slice(), 2)?);
    let r = [cell(2, 2), NONE, cell(1, 1), cell(2, 2)];
    let blocked = net_of(alloc, &[1, 0, 1], &[t, u, r])?;
    let out = [Fate::Kept(0), Fate::Kept(1), Fate::Blocked];
    assert!(rt; gives(alloc, &blocked, out.as_slice(), 2)?);
    let x = [cell(0, 1), cell(2, 1), cell(1, 1), cell(2, 1)];
    let equal = net_of(alloc, &[1, 0, 1], &[t, t, x])?;
    let merged = [Fate::Kept(0), Fate::Merged(0), Fate::Merged(0)];
    assert!(rt; gives(alloc, &equal, merged.as_slice(), 1)?);
    Ok(())
}

#[test]
fn later_rounds_find_more(rt: HostRuntime) -> Result<(), Fail> {
    let alloc = rt.alloc();
    let t = [cell(0, 1), NONE, cell(1, 1), NONE];
    let u = [cell(1, 1), NONE, cell(0, 1), NONE];
    let r = [cell(2, 2), NONE, cell(2, 2), cell(3, 1)];
    let z = [cell(3, 1), NONE, cell(1, 1), cell(3, 1)];
    let feeding = net_of(alloc, &[1, 0, 1, 0], &[t, u, r, z])?;
    let fates = [Fate::Kept(0), Fate::Kept(1), Fate::Blocked, Fate::Dead];
    assert!(rt; gives(alloc, &feeding, fates.as_slice(), 3)?);
    let s = [cell(0, 1), cell(3, 1), cell(1, 1), NONE];
    let later = net_of(alloc, &[1, 0, 1, MOST], &[t, s, r, r])?;
    let out = [Fate::Kept(0), Fate::Kept(1), Fate::Blocked, Fate::Blocked];
    assert!(rt; gives(alloc, &later, out.as_slice(), 2)?);
    let empty = net_of(alloc, &[], &[])?;
    assert!(rt; gives(alloc, &empty, &[], 1)?);
    let idle = net_of(alloc, &[MOST], &[])?;
    assert!(rt; gives(alloc, &idle, &[], 1)?);
    Ok(())
}

#[test]
fn markings_are_projected_and_lifted(rt: HostRuntime) -> Result<(), Fail> {
    let alloc = rt.alloc();
    let t = [cell(0, 1), cell(2, MOST), cell(1, 1), cell(2, MOST)];
    let net = net_of(alloc, &[1, 0, MOST, 5], &[t])?;
    let found = reduced::<Brand>(Blank::new(1), alloc, &net)?;
    let slots = [
        Slot::Kept(0),
        Slot::Kept(1),
        Slot::Constant(MOST),
        Slot::Constant(5),
    ];
    assert_eq!(rt; found.slots.as_slice(), slots.as_slice());
    let down = found.project(alloc, &net.start(alloc)?)?;
    assert_eq!(rt; down.counts(), [1, 0].as_slice());
    let up = found.lift(alloc, &found.net.start(alloc)?)?;
    assert_eq!(rt; up.counts(), [1, 0, MOST, 5].as_slice());
    Ok(())
}

#[test]
fn traps_and_siphons_are_told(rt: HostRuntime) -> Result<(), Fail> {
    let alloc = rt.alloc();
    let t = [cell(0, 1), NONE, cell(1, 1), NONE];
    let net = net_of(alloc, &[1, 0], &[t])?;
    let mut set = PlaceSet::empty(alloc, &net)?;
    assert!(rt; trap_true(&net, 0, &set));
    assert!(rt; is_siphon(&net, &set));
    set.insert(1);
    assert!(rt; trap_true(&net, 0, &set));
    assert!(rt; !is_siphon(&net, &set));
    set.insert(0);
    assert!(rt; is_siphon(&net, &set));
    Ok(())
}

#[test]
fn the_reduced_net_has_what_stays(rt: HostRuntime) -> Result<(), Fail> {
    let alloc = rt.alloc();
    let t = [cell(0, 1), NONE, cell(1, 1), NONE];
    let w = [cell(0, 1), cell(2, 1), cell(1, 1), cell(2, 1)];
    let net = net_of(alloc, &[1, 0, 1], &[t, t, w])?;
    let found = reduced::<Brand>(Blank::new(1), alloc, &net)?;
    let slots = [Slot::Kept(0), Slot::Kept(1), Slot::Constant(1)];
    assert_eq!(rt; found.slots.as_slice(), slots.as_slice());
    assert_eq!(rt; found.net.initial_counts(), [1, 0].as_slice());
    assert_eq!(rt; found.net.instances(), 1);
    if found.net.instances() > 0 {
        assert_eq!(rt; found.net.origin(0), net.origin(0));
        assert_eq!(rt; found.net.cells(Side::Pre, 0), [cell(0, 1)].as_slice());
        assert_eq!(rt; found.net.cells(Side::Post, 0), [cell(1, 1)].as_slice());
    }
    let down = found.project(alloc, &net.start(alloc)?)?;
    assert_eq!(rt; down.counts(), [1, 0].as_slice());
    let up = found.lift(alloc, &found.net.start(alloc)?)?;
    assert_eq!(rt; up.counts(), [1, 0, 1].as_slice());
    Ok(())
}

#[test]
fn places_become_constant_in_a_later_round(rt: HostRuntime) -> Result<(), Fail> {
    let alloc = rt.alloc();
    let t = [cell(0, 1), NONE, cell(1, 1), NONE];
    let w = [cell(0, 1), cell(3, 1), cell(1, 1), cell(3, 1)];
    let r = [cell(2, 2), NONE, cell(2, 2), cell(3, 1)];
    let net = net_of(alloc, &[1, 0, 1, 1], &[t, w, r])?;
    let found = reduced::<Brand>(Blank::new(1), alloc, &net)?;
    let slots = [
        Slot::Kept(0),
        Slot::Kept(1),
        Slot::Constant(1),
        Slot::Constant(1),
    ];
    let fates = [Fate::Kept(0), Fate::Merged(0), Fate::Blocked];
    assert_eq!(rt; found.slots.as_slice(), slots.as_slice());
    assert_eq!(rt; found.fates.as_slice(), fates.as_slice());
    assert_eq!(rt; found.rounds, 2);
    Ok(())
}

#[test]
fn places_of_a_siphon_stay_empty(rt: HostRuntime) -> Result<(), Fail> {
    let alloc = rt.alloc();
    let t = [cell(0, 1), NONE, cell(1, 1), NONE];
    let u = [cell(1, 1), NONE, cell(0, 1), NONE];
    let z = [cell(2, 1), NONE, cell(1, 1), cell(3, 1)];
    let w = [cell(3, 1), NONE, cell(2, 1), NONE];
    let net = net_of(alloc, &[1, 0, 0, 0], &[t, u, z, w])?;
    let marked = closed::<Brand>(Blank::new(1), alloc, &net)?;
    assert!(rt; marked.has(0));
    assert!(rt; marked.has(1));
    assert!(rt; !marked.has(2));
    assert!(rt; !marked.has(3));
    let mut outside = PlaceSet::empty(alloc, &net)?;
    outside.insert(2);
    outside.insert(3);
    assert!(rt; is_siphon(&net, &outside));
    Ok(())
}

// A chain in which the last instance fires first: instance `j` moves a token from place
// `length - 1 - j` to the next one.
fn chain(alloc: Global, length: u32) -> Result<PtNet, Memory>
    requires { length < 2 ^ 30 }
    ensures { IfOk result (λ net. places net ≡ length + 1) }
{
    let mut initial = vec![in alloc; 0; length as usize + 1]?;
    initial[0] = 1;
    let mut draft = Draft::new(alloc, initial, length as usize)?;
    for instance in 0..length {
        let from = length - 1 - instance;
        draft.add(alloc, &[cell(from, 1)], &[cell(from + 1, 1)])?;
    }
    Ok(draft.net())
}

#[test]
fn a_million_stages_are_closed(rt: HostRuntime) -> Result<(), Fail> {
    let alloc = rt.alloc();
    let net = chain(alloc, 1_000_000)?;
    let set = closed::<Brand>(Blank::new(1), alloc, &net)?;
    let mut marked = 0;
    for place in 0..net.places() {
        if set.has(place) {
            marked = place;
        }
    }
    assert_eq!(rt; marked, 1_000_000);
    let found = reduced::<Brand>(Blank::new(1), alloc, &net)?;
    assert_eq!(rt; found.net.instances(), 1_000_000);
    Ok(())
}
