ghost use Rattle.std.specs.Prelude.{◌≡◌, ◌≢◌, ◌<◌, ◌≤◌, ◌+◌, ◌*◌, ◌||◌, ◌&&◌, ℕ, true, false, not, nat_eq, nat_le, length, slice_index, slice_set, IfOk, OnOk, MatchBool};
ghost use Rattle.pt_net.specs.Systems.{instance_at, places, size, pre, post};
ghost use Rattle.wide_sums.specs.Cells.{amount};
ghost use Rattle.pt_net.specs.Instances.{row_of};
ghost use Rattle.trap_siphon.specs.Sets.{has, each_below, set_of};
ghost use Rattle.trap_siphon.specs.Stages.{has_inputs};
ghost use Rattle.pt_net.specs.Packing.{IsPackedOf};
ghost use Rattle.reductions.specs.Marking.{Marks};
ghost use Rattle.reductions.specs.Merging.{alive_after};
ghost use Rattle.reductions.specs.Searching.{AreAsLong, Finds, IsLastRound, IsRound};
ghost use Rattle.reductions.specs.Rounds.{undead_over, unchanged, unblocked, rounds};

use pt_net::{Packed, PtNet, Side};
use std::alloc::Global;
use std::sync::ledger::Ledger;
use trap_siphon::{InstanceSet, PlaceSet, marked_support};
use wide_sums::{Cell, Memory, Steps};

// Whether all inputs of the instance are in the set.
fn has_inputs(net: &PtNet, set: &PlaceSet, instance: u32) -> bool
    requires instance { instance < size net.now }
    requires set { length set.now ≡ places net.now }
    ensures { MatchBool result (has_inputs net.now set.now instance ≡ true) ((p : ℕ) × (0 < pre net.now instance p) × (p < places net.now) × (has set.now p ≢ true)) }
{
    for cell in net.cells(Side::Pre, instance) {
        if !set.has(cell.at) {
            return false;
        }
    }
    true
}

// Whether an active instance has inputs that can all be marked.
fn is_undead(net: &PtNet, active: &InstanceSet, marked: &PlaceSet, instance: u32) -> bool
    requires instance { instance < size net.now }
    requires active { length active.now ≡ size net.now }
    requires marked { length marked.now ≡ places net.now }
    ensures { MatchBool result ((has active.now instance ≡ true) × (has_inputs net.now marked.now instance ≡ true))
        ((has active.now instance ≡ true) × (has_inputs net.now marked.now instance ≡ true) → ⊥) }
{
    active.has(instance) && has_inputs(net, marked, instance)
}

// Takes an instance out where it isn't chosen.
fn choose(set: &mut InstanceSet, instance: u32, chosen: bool)
    requires instance { instance < length set.old }
    requires all { has set.old instance ≡ true }
    ensures { set.new ≡ slice_set set.old instance chosen }
{
    if !chosen {
        set.without(instance);
    }
}

// The active instances whose inputs can all be marked.
fn undead(
    alloc: Global,
    net: &PtNet,
    active: &InstanceSet,
    marked: &PlaceSet,
) -> Result<InstanceSet, Memory>
    requires active { length active.now ≡ size net.now }
    requires marked { length marked.now ≡ places net.now }
    ensures as_long { IfOk result (λ found. length found ≡ size net.now) }
    ensures set { IfOk result (λ found. found ≡ undead_over net.now active.now marked.now) }
{
    let mut found = InstanceSet::all(alloc, net)?;
    for instance in 0..net.instances() {
        let chosen = is_undead(net, active, marked, instance);
        choose(&mut found, instance, chosen);
    }
    Ok(found)
}

// Whether a cell takes more from a constant place than the initial marking has there.
fn exceeds(net: &PtNet, constant: &PlaceSet, cell: Cell) -> bool
    requires place { cell.at < places net.now }
    requires constant { length constant.now ≡ places net.now }
    ensures { MatchBool result ((has constant.now cell.at ≡ true) × (slice_index net.now.initial cell.at < cell.count))
        (has constant.now cell.at ≡ true → cell.count ≤ slice_index net.now.initial cell.at) }
{
    constant.has(cell.at) && net.initial(cell.at) < cell.count
}

// Whether the instance takes no more from these places than the initial marking has there.
fn fits(net: &PtNet, constant: &PlaceSet, instance: u32) -> bool
    requires instance { instance < size net.now }
    requires constant { length constant.now ≡ places net.now }
    ensures { MatchBool result ((p : ℕ) → p < places net.now → has constant.now p ≡ true → pre net.now instance p ≤ slice_index net.now.initial p)
        ((p : ℕ) × (p < places net.now) × (has constant.now p ≡ true) × (slice_index net.now.initial p < pre net.now instance p)) }
{
    for cell in net.cells(Side::Pre, instance) {
        if exceeds(net, constant, *cell) {
            return false;
        }
    }
    true
}

// Whether an undead instance fits on the constant places.
fn is_live(net: &PtNet, undead: &InstanceSet, constant: &PlaceSet, instance: u32) -> bool
    requires instance { instance < size net.now }
    requires undead { length undead.now ≡ size net.now }
    requires constant { length constant.now ≡ places net.now }
    ensures { MatchBool result ((has undead.now instance ≡ true) × ((p : ℕ) → p < places net.now → has constant.now p ≡ true → pre net.now instance p ≤ slice_index net.now.initial p))
        ((has undead.now instance ≡ true) × ((p : ℕ) → p < places net.now → has constant.now p ≡ true → pre net.now instance p ≤ slice_index net.now.initial p) → ⊥) }
{
    undead.has(instance) && fits(net, constant, instance)
}

// The undead instances that aren't blocked.
fn unblocked(
    alloc: Global,
    net: &PtNet,
    undead: &InstanceSet,
    constant: &PlaceSet,
) -> Result<InstanceSet, Memory>
    requires undead { length undead.now ≡ size net.now }
    requires constant { length constant.now ≡ places net.now }
    ensures as_long { IfOk result (λ found. length found ≡ size net.now) }
    ensures set { IfOk result (λ found. found ≡ unblocked net.now undead.now constant.now) }
{
    let mut found = InstanceSet::all(alloc, net)?;
    for instance in 0..net.instances() {
        let chosen = is_live(net, undead, constant, instance);
        choose(&mut found, instance, chosen);
    }
    Ok(found)
}

// Whether two sets of as many instances are the same.
fn are_same(one: &InstanceSet, other: &InstanceSet, count: u32) -> bool
    requires one { length one.now ≡ count }
    requires other { length other.now ≡ count }
    ensures { MatchBool result (one.now ≡ other.now) (one.now ≢ other.now) }
{
    for instance in 0..count {
        if one.has(instance) != other.has(instance) {
            return false;
        }
    }
    true
}

// Adds the place of a cell where the other row has another count.
fn add_cell(net: &PtNet, changed: &mut PlaceSet, instance: u32, other: Side, cell: Cell)
    requires instance { instance < size net.now }
    requires changed { cell.at < length changed.old }
    ensures { Marks (λ p. (p ≡ cell.at) × (cell.count ≢ amount cell.at (row_of other (instance_at net.now instance)))) changed.old changed.new }
{
    if net.weight(other, instance, cell.at) != cell.count {
        changed.insert(cell.at);
    }
}

// Adds the places of a row where the other row has another count.
fn add_row(net: &PtNet, changed: &mut PlaceSet, instance: u32, from: Side, other: Side)
    requires instance { instance < size net.now }
    requires changed { length changed.old ≡ places net.now }
    ensures { Marks (λ p. (0 < amount p (row_of from (instance_at net.now instance))) × (amount p (row_of from (instance_at net.now instance)) ≢ amount p (row_of other (instance_at net.now instance)))) changed.old changed.new }
{
    for cell in net.cells(from, instance) {
        add_cell(net, changed, instance, other, *cell);
    }
}

// Adds the places that an undead instance changes.
fn add_changes(net: &PtNet, changed: &mut PlaceSet, undead: &InstanceSet, instance: u32)
    requires instance { instance < size net.now }
    requires changed { length changed.old ≡ places net.now }
    requires undead { length undead.now ≡ size net.now }
    ensures { Marks (λ p. (has undead.now instance ≡ true) × (pre net.now instance p ≢ post net.now instance p)) changed.old changed.new }
{
    if undead.has(instance) {
        add_row(net, changed, instance, Side::Pre, Side::Post);
        add_row(net, changed, instance, Side::Post, Side::Pre);
    }
}

// The places that undead instances change.
fn changed(alloc: Global, net: &PtNet, undead: &InstanceSet) -> Result<PlaceSet, Memory>
    requires undead { length undead.now ≡ size net.now }
    ensures as_long { IfOk result (λ found. length found ≡ places net.now) }
    ensures changed { IfOk result (λ found. (p : ℕ) → p < places net.now → has found p ≡ not (each_below (size net.now) (λ i. not (has undead.now i) || nat_eq (pre net.now i p) (post net.now i p)))) }
{
    let mut found = PlaceSet::empty(alloc, net)?;
    for instance in 0..net.instances() {
        add_changes(net, &mut found, undead, instance);
    }
    Ok(found)
}

// Adds a place where it is chosen.
fn choose_place(set: &mut PlaceSet, place: u32, chosen: bool)
    requires place { place < length set.old }
    requires none { has set.old place ≡ false }
    ensures { set.new ≡ slice_set set.old place chosen }
{
    if chosen {
        set.insert(place);
    }
}

// The places that a set hasn't.
fn others(alloc: Global, net: &PtNet, set: &PlaceSet) -> Result<PlaceSet, Memory>
    requires set { length set.now ≡ places net.now }
    ensures { IfOk result (λ found. found ≡ set_of (places net.now) (λ p. not (has set.now p))) }
{
    let mut found = PlaceSet::empty(alloc, net)?;
    for place in 0..net.places() {
        choose_place(&mut found, place, !set.has(place));
    }
    Ok(found)
}

// The places that no undead instance changes.
fn unchanged(alloc: Global, net: &PtNet, undead: &InstanceSet) -> Result<PlaceSet, Memory>
    requires undead { length undead.now ≡ size net.now }
    ensures as_long { IfOk result (λ found. length found ≡ places net.now) }
    ensures still { IfOk result (λ found. found ≡ unchanged net.now undead.now) }
{
    let moved = changed(alloc, net, undead)?;
    let found = others(alloc, net, &moved)?;
    Ok(found)
}

// Whether an instance wasn't dead before, and isn't dead now.
fn is_alive(before: &InstanceSet, active: &InstanceSet, undead: &InstanceSet, instance: u32) -> bool
    requires before { instance < length before.now }
    requires active { instance < length active.now }
    requires undead { instance < length undead.now }
    ensures { result ≡ (has before.now instance && not (has active.now instance && not (has undead.now instance))) }
{
    before.has(instance) && (!active.has(instance) || undead.has(instance))
}

// Those of the instances before a round that aren't dead in it.
fn alive_after(
    alloc: Global,
    net: &PtNet,
    before: &InstanceSet,
    active: &InstanceSet,
    undead: &InstanceSet,
) -> Result<InstanceSet, Memory>
    requires before { length before.now ≡ size net.now }
    requires active { length active.now ≡ size net.now }
    requires undead { length undead.now ≡ size net.now }
    ensures as_long { IfOk result (λ found. length found ≡ size net.now) }
    ensures alive { IfOk result (λ found. found ≡ alive_after net.now before.now active.now undead.now) }
{
    let mut found = InstanceSet::all(alloc, net)?;
    for instance in 0..net.instances() {
        let chosen = is_alive(before, active, undead, instance);
        choose(&mut found, instance, chosen);
    }
    Ok(found)
}

// A net with its input entries, and the memory to work in.
#[derive(Clone, Copy)]
pub(crate) struct Task<'a> {
    pub(crate) alloc: Global,
    pub(crate) net: &'a PtNet,
    pub(crate) packed: &'a Packed,
}

// What a round finds over its active instances, and the instances that were dead in no round so
// far.
#[derive(Debug, Drop)]
pub(crate) struct Round {
    pub(crate) active: InstanceSet,
    pub(crate) constant: PlaceSet,
    pub(crate) live: InstanceSet,
    pub(crate) alive: InstanceSet,
}

impl Round {
    // The round over these active instances, behind rounds in which those `before` weren't dead.
    fn over<L: Ledger>(
        task: &Task<'_>,
        on: InstanceSet,
        before: &InstanceSet,
        steps: &mut Steps<L>,
    ) -> Result<Round, Memory>
        requires packed { IsPackedOf task.now.net.now task.now.packed.now }
        requires on { length on ≡ size task.now.net.now }
        requires before { length before.now ≡ size task.now.net.now }
        ensures lengths { IfOk result (λ round. AreAsLong task.now.net.now round.active round.constant round.live round.alive) }
        ensures found { IfOk result (λ round. Finds task.now.net.now on before.now round.active round.constant round.live round.alive) }
        ensures steps { steps.new ≤ steps.old + length task.now.packed.now }
    {
        let start = task.net.start(task.alloc)?;
        let marked = marked_support(task.alloc, task.net, task.packed, &on, &start, steps)?;
        let undead = undead(task.alloc, task.net, &on, &marked)?;
        let constant = unchanged(task.alloc, task.net, &undead)?;
        let live = unblocked(task.alloc, task.net, &undead, &constant)?;
        let alive = alive_after(task.alloc, task.net, before, &on, &undead)?;
        Ok(Round {
            active: on,
            constant,
            live,
            alive,
        })
    }

    // The first round: all instances are active.
    fn first<L: Ledger>(task: &Task<'_>, steps: &mut Steps<L>) -> Result<Round, Memory>
        requires packed { IsPackedOf task.now.net.now task.now.packed.now }
        ensures lengths { IfOk result (λ round. AreAsLong task.now.net.now round.active round.constant round.live round.alive) }
        ensures found { IfOk result (λ round. IsRound task.now.net.now 0 round.active round.constant round.live round.alive) }
        ensures steps { steps.new ≤ steps.old + length task.now.packed.now }
    {
        let on = InstanceSet::all(task.alloc, task.net)?;
        let before = InstanceSet::all(task.alloc, task.net)?;
        let round = Round::over(task, on, &before, steps)?;
        Ok(round)
    }

    // The round behind this one: the instances that are live here are active there.
    fn next<L: Ledger>(self, task: &Task<'_>, steps: &mut Steps<L>) -> Result<Round, Memory>
        requires packed { IsPackedOf task.now.net.now task.now.packed.now }
        requires lengths { AreAsLong task.now.net.now self.active self.constant self.live self.alive }
        ensures lengths { IfOk result (λ round. AreAsLong task.now.net.now round.active round.constant round.live round.alive) }
        ensures found { IfOk result (λ round. Finds task.now.net.now self.live self.alive round.active round.constant round.live round.alive) }
        ensures steps { steps.new ≤ steps.old + length task.now.packed.now }
    {
        let Round { live, alive, .. } = self;
        let round = Round::over(task, live, &alive, steps)?;
        Ok(round)
    }
}

/// The last round and the number of rounds: the first one that takes no instance out, or the 64th.
pub(crate) fn last_round<L: Ledger>(
    task: &Task<'_>,
    steps: &mut Steps<L>,
) -> Result<(Round, u32), Memory>
    requires packed { IsPackedOf task.now.net.now task.now.packed.now }
    ensures lengths { IfOk result (λ found. AreAsLong task.now.net.now found.0.active found.0.constant found.0.live found.0.alive) }
    ensures found { IfOk result (λ found. IsLastRound task.now.net.now found.0.active found.0.constant found.0.live found.0.alive) }
    ensures rounds { IfOk result (λ found. found.1 ≡ rounds task.now.net.now) }
    ensures steps { IfOk result (λ found. steps.new ≤ steps.old + found.1 * length task.now.packed.now) }
    ensures most { steps.new ≤ steps.old + 64 * length task.now.packed.now }
{
    let mut round = Round::first(task, steps)?;
    for before in 0..63 {
        if are_same(&round.live, &round.active, task.net.instances()) {
            return Ok((round, before + 1));
        }
        round = round.next(task, steps)?;
    }
    Ok((round, 64))
}
