ghost use Rattle.std.specs.Prelude.{◌≡◌, ◌<◌, ◌≤◌, ◌+◌, ◌-◌, ◌^◌, ℕ, [], true, false, length, take, slice_index, slice_set, OnOk, IfOk};
ghost use Rattle.wide_sums.specs.Cells.{IsRow, amount};
ghost use Rattle.pt_net.specs.Markings.{IsInRange};
ghost use Rattle.pt_net.specs.Systems.{instance_at, places, size, post};
ghost use Rattle.trap_siphon.specs.Sets.{has};
ghost use Rattle.trap_siphon.specs.Stages.{last_stage};
ghost use Rattle.pt_net.specs.Packing.{IsPackedOf, entry_at};
ghost use Rattle.trap_siphon.specs.Closing.{Adds, IsClosing, IsExtended, IsListed, left, spent, HasInputCounts};

use crate::sets::{InstanceSet, PlaceSet};
use pt_net::{Marking, Packed, PtNet, Side};
use std::alloc::Global;
use std::sync::ledger::Ledger;
use wide_sums::{Cell, Memory, Steps};

// What a closure is made of.
#[derive(Clone, Copy)]
struct Task<'a> {
    net: &'a PtNet,
    packed: &'a Packed,
    active: &'a InstanceSet,
    marking: &'a Marking,
}

// The places so far, as a set and in the order in which they were added, and per instance the
// number of its input entries that are not spent.
#[derive(Debug, Drop)]
struct Closure {
    set: PlaceSet,
    order: Vec<u32>,
    missing: Vec<usize>,
}

impl Closure {
    // No places, and every input entry missing.
    fn new(alloc: Global, net: &PtNet) -> Result<Closure, Memory>
        ensures set { IfOk result (λ c. length c.set ≡ places net.now) }
        ensures empty { IfOk result (λ c. (p : ℕ) → has c.set p ≡ false) }
        ensures order { IfOk result (λ c. c.order.items ≡ []) }
        ensures missing { IfOk result (λ c. HasInputCounts net.now c.missing.items) }
    {
        let set = PlaceSet::empty(alloc, net)?;
        let mut missing = Vec::new(alloc);
        for instance in 0..net.instances() {
            missing.push(net.cells(Side::Pre, instance).len())?;
        }
        Ok(Closure {
            set,
            order: Vec::new(alloc),
            missing,
        })
    }

    // Adds a place, if it isn't there.
    fn add(&mut self, place: u32) -> Result<(), Memory>
        requires place { place < length self.old.set }
        requires listed { IsListed self.old.set self.old.order.items }
        ensures adds { OnOk result (Adds (λ p. p ≡ place) self.old.set self.new.set self.old.order.items self.new.order.items) }
        ensures missing { OnOk result (self.new.missing ≡ self.old.missing) }
    {
        if !self.set.has(place) {
            self.set.insert(place);
            self.order.push(place)?;
        }
        Ok(())
    }

    // Adds the places of a row.
    fn add_row(&mut self, row: &[Cell]) -> Result<(), Memory>
        requires row { IsRow row.now }
        requires in_range { IsInRange (length self.old.set) row.now }
        requires listed { IsListed self.old.set self.old.order.items }
        ensures adds { OnOk result (Adds (λ p. 0 < amount p row.now) self.old.set self.new.set self.old.order.items self.new.order.items) }
        ensures missing { OnOk result (self.new.missing ≡ self.old.missing) }
    {
        for cell in row {
            self.add(cell.at)?;
        }
        Ok(())
    }

    // Adds a place that is marked.
    fn add_if_marked(&mut self, place: u32, count: u64) -> Result<(), Memory>
        requires place { place < length self.old.set }
        requires listed { IsListed self.old.set self.old.order.items }
        ensures adds { OnOk result (Adds (λ p. (p ≡ place) × (0 < count)) self.old.set self.new.set self.old.order.items self.new.order.items) }
        ensures missing { OnOk result (self.new.missing ≡ self.old.missing) }
    {
        if count > 0 {
            self.add(place)?;
        }
        Ok(())
    }

    // Adds the marked places.
    fn add_marked(&mut self, places: u32, marking: &[u64]) -> Result<(), Memory>
        requires set { length self.old.set ≡ places }
        requires marking { length marking.now ≡ places }
        requires listed { IsListed self.old.set self.old.order.items }
        ensures adds { OnOk result (Adds (λ p. 0 < slice_index marking.now p) self.old.set self.new.set self.old.order.items self.new.order.items) }
        ensures missing { OnOk result (self.new.missing ≡ self.old.missing) }
    {
        for place in 0..places {
            self.add_if_marked(place, marking[place as usize])?;
        }
        Ok(())
    }

    // Adds the outputs of an active instance, if so many of its inputs are missing.
    fn serve(
        &mut self,
        net: &PtNet,
        active: &InstanceSet,
        instance: u32,
        count: usize,
    ) -> Result<(), Memory>
        requires instance { instance < size net.now }
        requires active { length active.now ≡ size net.now }
        requires set { length self.old.set ≡ places net.now }
        requires missing { length self.old.missing.items ≡ size net.now }
        requires listed { IsListed self.old.set self.old.order.items }
        ensures adds { OnOk result (Adds (λ p. (slice_index self.old.missing.items instance ≡ count) × (has active.now instance ≡ true) × (0 < post net.now instance p))
            self.old.set self.new.set self.old.order.items self.new.order.items) }
        ensures missing { OnOk result (self.new.missing ≡ self.old.missing) }
    {
        if self.missing[instance as usize] == count && active.has(instance) {
            self.add_row(net.cells(Side::Post, instance))?;
        }
        Ok(())
    }

    // Spends an input entry: the last one of an active instance adds its outputs.
    fn spend<L: Ledger>(
        &mut self,
        task: &Task<'_>,
        k: u32,
        steps: &mut Steps<L>,
    ) -> Result<(), Memory>
        requires entry { k < length task.now.packed.now }
        requires instance { (entry_at task.now.packed.now k).instance < size task.now.net.now }
        requires active { length task.now.active.now ≡ size task.now.net.now }
        requires set { length self.old.set ≡ places task.now.net.now }
        requires missing { length self.old.missing.items ≡ size task.now.net.now }
        requires some { 0 < slice_index self.old.missing.items (entry_at task.now.packed.now k).instance }
        requires listed { IsListed self.old.set self.old.order.items }
        ensures adds { OnOk result (Adds (λ p. (slice_index self.old.missing.items (entry_at task.now.packed.now k).instance ≡ 1)
            × (has task.now.active.now (entry_at task.now.packed.now k).instance ≡ true)
            × (0 < post task.now.net.now (entry_at task.now.packed.now k).instance p))
            self.old.set self.new.set self.old.order.items self.new.order.items) }
        ensures missing { OnOk result (self.new.missing.items
            ≡ slice_set self.old.missing.items (entry_at task.now.packed.now k).instance (slice_index self.old.missing.items (entry_at task.now.packed.now k).instance - 1)) }
        ensures step { steps.new ≡ steps.old + 1 }
    {
        let entry = task.packed.entry(k, steps);
        self.serve(task.net, task.active, entry.instance, 1)?;
        self.missing[entry.instance as usize] -= 1;
        Ok(())
    }

    // Spends the entries of the place that was added at this point.
    fn spread<L: Ledger>(
        &mut self,
        task: &Task<'_>,
        next: usize,
        steps: &mut Steps<L>,
    ) -> Result<(), Memory>
        requires packed { IsPackedOf task.now.net.now task.now.packed.now }
        requires active { length task.now.active.now ≡ size task.now.net.now }
        requires few { places task.now.net.now < 2 ^ 32 }
        requires next { next < length self.old.order.items }
        requires closing { IsClosing task.now.net.now task.now.packed.now task.now.active.now task.now.marking.now (size task.now.net.now)
            (spent task.now.packed.now (take next self.old.order.items)) self.old.set self.old.order.items self.old.missing.items }
        ensures closing { OnOk result (IsClosing task.now.net.now task.now.packed.now task.now.active.now task.now.marking.now (size task.now.net.now)
            (spent task.now.packed.now (take (next + 1) self.new.order.items)) self.new.set self.new.order.items self.new.missing.items) }
        ensures more { OnOk result (IsExtended self.old.order.items self.new.order.items) }
        ensures steps { OnOk result (steps.new + left task.now.packed.now (spent task.now.packed.now (take (next + 1) self.new.order.items))
            ≤ steps.old + left task.now.packed.now (spent task.now.packed.now (take next self.old.order.items))) }
        ensures most { steps.new ≤ steps.old + left task.now.packed.now (spent task.now.packed.now (take next self.old.order.items)) }
    {
        let place = self.order[next];
        for k in task.packed.first(place)..task.packed.first(place + 1) {
            self.spend(task, k, steps)?;
        }
        Ok(())
    }

    // Spends the entries of all places, those that are added on the way too.
    fn close<L: Ledger>(&mut self, task: &Task<'_>, steps: &mut Steps<L>) -> Result<(), Memory>
        requires packed { IsPackedOf task.now.net.now task.now.packed.now }
        requires active { length task.now.active.now ≡ size task.now.net.now }
        requires few { places task.now.net.now < 2 ^ 32 }
        requires closing { IsClosing task.now.net.now task.now.packed.now task.now.active.now task.now.marking.now (size task.now.net.now)
            (spent task.now.packed.now []) self.old.set self.old.order.items self.old.missing.items }
        ensures closed { OnOk result (self.new.set ≡ last_stage task.now.net.now task.now.active.now task.now.marking.now) }
        ensures steps { steps.new ≤ steps.old + length task.now.packed.now }
    {
        let mut next = 0;
        while next < self.order.len() {
            self.spread(task, next, steps)?;
            next += 1;
        }
        Ok(())
    }

    // Adds the outputs of the active instances without inputs.
    fn add_free(&mut self, net: &PtNet, active: &InstanceSet) -> Result<(), Memory>
        requires active { length active.now ≡ size net.now }
        requires set { length self.old.set ≡ places net.now }
        requires missing { length self.old.missing.items ≡ size net.now }
        requires listed { IsListed self.old.set self.old.order.items }
        ensures adds { OnOk result (Adds (λ p. (i : ℕ) × (i < size net.now) × (slice_index self.old.missing.items i ≡ 0) × (has active.now i ≡ true) × (0 < post net.now i p))
            self.old.set self.new.set self.old.order.items self.new.order.items) }
        ensures missing { OnOk result (self.new.missing ≡ self.old.missing) }
    {
        for instance in 0..net.instances() {
            self.serve(net, active, instance, 0)?;
        }
        Ok(())
    }
}

/// The last stage of a round in which these instances are active, from this marking: the places
/// that can be marked.
///
/// It calls `entry` at most once for each input entry.
pub fn marked_support<L: Ledger>(
    alloc: Global,
    net: &PtNet,
    packed: &Packed,
    active: &InstanceSet,
    marking: &Marking,
    steps: &mut Steps<L>,
) -> Result<PlaceSet, Memory>
    requires packed { IsPackedOf net.now packed.now }
    requires active { length active.now ≡ size net.now }
    requires marking { length marking.now ≡ places net.now }
    ensures closed { IfOk result (λ set. set ≡ last_stage net.now active.now marking.now) }
    ensures as_long { IfOk result (λ set. length set ≡ places net.now) }
    ensures steps { steps.new ≤ steps.old + length packed.now }
{
    let task = Task {
        net,
        packed,
        active,
        marking,
    };
    let mut closure = Closure::new(alloc, net)?;
    closure.add_marked(net.places(), marking.counts())?;
    closure.add_free(net, active)?;
    closure.close(&task, steps)?;
    let Closure { set, .. } = closure;
    Ok(set)
}
