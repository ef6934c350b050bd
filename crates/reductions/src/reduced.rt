ghost use Rattle.std.specs.Prelude.{◌≡◌, ◌<◌, ◌≤◌, ◌+◌, ◌*◌, ◌^◌, ◌++◌, length, map, All, IfOk, OnOk};
ghost use Rattle.pt_net.specs.Systems.{IsSystem, NetSystem, input_entries, places, size};
ghost use Rattle.reductions.specs.Reduced.{counts_on, with_constants, without_constants};
ghost use Rattle.reductions.specs.Merging.{IsNumbered, stays};
ghost use Rattle.reductions.specs.Rounds.{rounds};
ghost use Rattle.reductions.specs.Searching.{AreAsLong, IsLastRound};
ghost use Rattle.reductions.specs.Slots.{CanBeGiven, Fits, IsReduction, kept_count, last_constant, projected, slot_count, slot_over, slots_over};

use crate::merging::{Merging, View, numbered};
use crate::rounds::{Round, Task, last_round};
use crate::{Fate, Slot};
use pt_net::{Marking, Packed, PtNet};
use std::alloc::Global;
use std::sync::ledger::Ledger;
use trap_siphon::PlaceSet;
use wide_sums::{Memory, Steps};

/// A net without its constant places and with one instance in the place of equal ones.
#[derive(Debug, Drop)]
pub struct Reduced {
    /// What stands for each place of the net.
    pub slots: Vec<Slot>,
    /// What became of each instance of the net.
    pub fates: Vec<Fate>,
    /// The reduced net. Its instances have the origins of the kept ones.
    pub net: PtNet,
    /// The number of rounds, from 1 to 64.
    pub rounds: u32,
}

// What stands for a place.
fn slot(net: &PtNet, constant: &PlaceSet, ranks: &[u32], place: u32) -> Slot
    requires place { place < places net.now }
    requires constant { length constant.now ≡ places net.now }
    requires ranks { IsNumbered constant.now ranks.now }
    ensures { result ≡ slot_over net.now constant.now place }
{
    if constant.has(place) {
        Slot::Constant(net.initial(place))
    } else {
        Slot::Kept(ranks[place as usize])
    }
}

// What stands for each place.
fn slots(
    alloc: Global,
    net: &PtNet,
    constant: &PlaceSet,
    ranks: &[u32],
) -> Result<Vec<Slot>, Memory>
    requires constant { length constant.now ≡ places net.now }
    requires ranks { IsNumbered constant.now ranks.now }
    ensures { IfOk result (λ found. found.items ≡ slots_over net.now constant.now) }
{
    let mut found = Vec::new(alloc);
    for place in 0..net.places() {
        found.push(slot(net, constant, ranks, place))?;
    }
    Ok(found)
}

// The initial counts of the places that stay.
fn initial(alloc: Global, net: &PtNet, constant: &PlaceSet) -> Result<Vec<u64>, Memory>
    requires { length constant.now ≡ places net.now }
    ensures { IfOk result (λ found. found.items ≡ counts_on net.now (stays constant.now) net.now.initial) }
{
    let mut found = Vec::new(alloc);
    for place in 0..net.places() {
        if !constant.has(place) {
            found.push(net.initial(place))?;
        }
    }
    Ok(found)
}

// The last round and the number of rounds. The input entries by place are let go with the rounds.
fn rounds_of<L: Ledger>(
    alloc: Global,
    net: &PtNet,
    steps: &mut Steps<L>,
) -> Result<(Round, u32), Memory>
    ensures system { IfOk result (λ found. IsSystem net.now) }
    ensures lengths { IfOk result (λ found. AreAsLong net.now found.0.active found.0.constant found.0.live found.0.alive) }
    ensures found { IfOk result (λ found. IsLastRound net.now found.0.active found.0.constant found.0.live found.0.alive) }
    ensures rounds { IfOk result (λ found. found.1 ≡ rounds net.now) }
    ensures steps { IfOk result (λ found. steps.new ≤ steps.old + found.1 * input_entries net.now) }
    ensures most { steps.new ≤ steps.old + 64 * input_entries net.now }
{
    let counts = net.initial_counts();
    let packed = Packed::of(alloc, net)?;
    let task = Task {
        alloc,
        net,
        packed: &packed,
    };
    let found = last_round(&task, steps)?;
    Ok(found)
}

/// Reduces a net: round after round the instances that can never fire are taken out, until nothing
/// changes, at most 64 times; then the places that no live instance changes are left out, and equal
/// live instances are merged.
///
/// Each round calls `entry` at most once for each input entry.
pub fn reduce<L: Ledger>(
    alloc: Global,
    net: &PtNet,
    steps: &mut Steps<L>,
) -> Result<Reduced, Memory>
    ensures reduction { IfOk result (λ found. IsReduction net.now found.slots.items found.fates.items found.net found.rounds) }
    ensures slots { IfOk result (λ found. length found.slots.items ≡ places net.now) }
    ensures fates { IfOk result (λ found. length found.fates.items ≡ size net.now) }
    ensures given { IfOk result (λ found. CanBeGiven found.slots.items found.fates.items found.net found.rounds) }
    ensures steps { IfOk result (λ found. steps.new ≤ steps.old + found.rounds * input_entries net.now) }
    ensures most { steps.new ≤ steps.old + 64 * input_entries net.now }
{
    let (round, rounds) = rounds_of(alloc, net, steps)?;
    let ranks = numbered(alloc, net, &round.constant)?;
    let view = View {
        alloc,
        net,
        round: &round,
        ranks: ranks.as_slice(),
    };
    let slots = slots(alloc, net, &round.constant, ranks.as_slice())?;
    let initial = initial(alloc, net, &round.constant)?;
    let merging = Merging::of(&view, initial)?;
    let Merging { fates, kept, .. } = merging;
    let net = kept.finish();
    Ok(Reduced {
        slots,
        fates,
        net,
        rounds,
    })
}

// Puts the count of a place behind the others, if the place stays.
fn put_kept(found: &mut Vec<u64>, slot: Slot, count: u64) -> Result<(), Memory>
    requires within { All (λ k. k < 2 ^ 63) found.old.items }
    requires count { count < 2 ^ 63 }
    ensures counts { OnOk result (found.new.items ≡ found.old.items ++ kept_count slot count) }
    ensures within { OnOk result (All (λ k. k < 2 ^ 63) found.new.items) }
{
    if let Slot::Kept(_) = slot {
        found.push(count)?;
    }
    Ok(())
}

// The counts at the places that stay.
fn project(alloc: Global, slots: &[Slot], counts: &[u64]) -> Result<Vec<u64>, Memory>
    requires length { length counts.now ≡ length slots.now }
    requires within { All (λ k. k < 2 ^ 63) counts.now }
    ensures counts { IfOk result (λ found. found.items ≡ projected slots.now counts.now) }
    ensures within { IfOk result (λ found. All (λ k. k < 2 ^ 63) found.items) }
{
    let mut found = Vec::new(alloc);
    for place in 0..slots.len() {
        put_kept(&mut found, slots[place], counts[place])?;
    }
    Ok(found)
}

// The count at a place.
fn count(slot: Slot, counts: &[u64]) -> u64
    requires fits { Fits (length counts.now) slot }
    requires within { All (λ k. k < 2 ^ 63) counts.now }
    ensures count { result ≡ slot_count counts.now slot }
    ensures within { result < 2 ^ 63 }
{
    match slot {
        Slot::Kept(number) => counts[number as usize],
        Slot::Constant(count) => count,
    }
}

// The counts at all places.
fn lift(alloc: Global, slots: &[Slot], counts: &[u64]) -> Result<Vec<u64>, Memory>
    requires fits { All (Fits (length counts.now)) slots.now }
    requires within { All (λ k. k < 2 ^ 63) counts.now }
    ensures counts { IfOk result (λ found. found.items ≡ map (slot_count counts.now) slots.now) }
    ensures within { IfOk result (λ found. All (λ k. k < 2 ^ 63) found.items) }
{
    let mut found = Vec::new(alloc);
    for slot in slots {
        found.push(count(*slot, counts))?;
    }
    Ok(found)
}

impl Reduced {
    /// A marking of the net without the constant places. It has one count per slot.
    pub fn project(&self, alloc: Global, marking: &Marking) -> Result<Marking, Memory>
        requires given { CanBeGiven self.now.slots.items self.now.fates.items self.now.net self.now.rounds }
        requires length { length marking.now ≡ length self.now.slots.items }
        ensures { IfOk result (λ found. (net : NetSystem) → IsReduction net self.now.slots.items self.now.fates.items self.now.net self.now.rounds
            → found ≡ without_constants net (last_constant net) marking.now) }
    {
        let counts = project(alloc, self.slots.as_slice(), marking.counts())?;
        Ok(Marking::of(counts))
    }

    /// A marking of the reduced net with the constant places and their counts put back. It has one
    /// count per place of the reduced net.
    pub fn lift(&self, alloc: Global, marking: &Marking) -> Result<Marking, Memory>
        requires given { CanBeGiven self.now.slots.items self.now.fates.items self.now.net self.now.rounds }
        requires length { length marking.now ≡ places self.now.net }
        ensures { IfOk result (λ found. (net : NetSystem) → IsReduction net self.now.slots.items self.now.fates.items self.now.net self.now.rounds
            → found ≡ with_constants net (last_constant net) marking.now) }
    {
        let counts = lift(alloc, self.slots.as_slice(), marking.counts())?;
        Ok(Marking::of(counts))
    }
}
