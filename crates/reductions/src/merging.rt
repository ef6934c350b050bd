ghost use Rattle.std.specs.Prelude.{◌≡◌, ◌<◌, ◌≤◌, ◌+◌, ◌^◌, ◌⊎◌, ℕ, [], length, slice_index, sum_by, IfOk, OnOk, All};
ghost use Rattle.wide_sums.specs.Cells.{IsRow};
ghost use Rattle.pt_net.specs.Markings.{IsInRange};
ghost use Rattle.pt_net.specs.InArrays.{instance_from};
ghost use Rattle.pt_net.specs.Systems.{IsSystem, instance_at, places, size, system_of};
ghost use Rattle.reductions.specs.Numbers.{rank};
ghost use Rattle.reductions.specs.Reduced.{row_on};
ghost use Rattle.reductions.specs.Merging.{HasRows, IsNumbered, Joins, Begins, key_at, on_stays, stays};
ghost use Rattle.reductions.specs.Searching.{AreAsLong, IsLastRound};
ghost use Rattle.reductions.specs.Merged.{IsMerging};

use crate::Fate;
use crate::keys::Key;
use crate::rounds::Round;
use pt_net::{Origin, PtNet, PtNetBuilder, Side};
use std::alloc::Global;
use std::collections::BTreeMap;
use trap_siphon::PlaceSet;
use wide_sums::{Cell, Memory};

// How many places up to this one stay, where `kept` places before it do.
fn rank_after(constant: &PlaceSet, place: u32, kept: u32) -> u32
    requires place { place < length constant.now }
    requires few { length constant.now < 2 ^ 32 }
    requires kept { kept ≡ rank (stays constant.now) place }
    ensures { result ≡ rank (stays constant.now) (place + 1) }
{
    if constant.has(place) { kept } else { kept + 1 }
}

// Per place, how many places before it stay.
pub(crate) fn numbered(alloc: Global, net: &PtNet, constant: &PlaceSet) -> Result<Vec<u32>, Memory>
    requires { length constant.now ≡ places net.now }
    ensures { IfOk result (λ ranks. IsNumbered constant.now ranks.items) }
{
    let mut ranks = Vec::new(alloc);
    let mut kept = 0;
    for place in 0..net.places() {
        ranks.push(kept)?;
        kept = rank_after(constant, place, kept);
    }
    Ok(ranks)
}

// Fills in a row on the places that stay, under their new numbers.
fn fill_row(
    found: &mut Vec<Cell>,
    row: &[Cell],
    constant: &PlaceSet,
    ranks: &[u32],
) -> Result<(), Memory>
    requires in_range { IsInRange (length constant.now) row.now }
    requires ranks { IsNumbered constant.now ranks.now }
    ensures { OnOk result (found.new.items ≡ row_on (stays constant.now) row.now) }
{
    found.clear();
    for cell in row {
        if !constant.has(cell.at) {
            found.push(Cell {
                at: ranks[cell.at as usize],
                count: cell.count,
            })?;
        }
    }
    Ok(())
}

// A net, what the last round finds in it, and the new numbers of its places.
#[derive(Clone, Copy)]
pub(crate) struct View<'a> {
    pub(crate) alloc: Global,
    pub(crate) net: &'a PtNet,
    pub(crate) round: &'a Round,
    pub(crate) ranks: &'a [u32],
}

// The rows of an instance on the places that stay, and their key. They are filled in anew for each
// instance.
#[derive(Debug, Drop)]
struct Restricted {
    pre: Vec<Cell>,
    post: Vec<Cell>,
    key: Key,
}

impl Restricted {
    // No rows yet.
    fn new(alloc: Global) -> Restricted {
        Restricted {
            pre: Vec::new(alloc),
            post: Vec::new(alloc),
            key: Key::new(alloc),
        }
    }

    // Those of this instance.
    fn fill(&mut self, view: &View<'_>, instance: u32) -> Result<(), Memory>
        requires instance { instance < size view.now.net.now }
        requires constant { length view.now.round.now.constant ≡ places view.now.net.now }
        requires ranks { IsNumbered view.now.round.now.constant view.now.ranks.now }
        ensures rows { OnOk result (HasRows view.now.net.now instance) }
        ensures pre { OnOk result (self.new.pre.items ≡ (on_stays view.now.net.now view.now.round.now.constant instance).pre) }
        ensures post { OnOk result (self.new.post.items ≡ (on_stays view.now.net.now view.now.round.now.constant instance).post) }
        ensures key { OnOk result (self.new.key ≡ key_at view.now.net.now view.now.round.now.constant instance) }
    {
        let constant = &view.round.constant;
        let pre = view.net.cells(Side::Pre, instance);
        fill_row(&mut self.pre, pre, constant, view.ranks)?;
        let post = view.net.cells(Side::Post, instance);
        fill_row(&mut self.post, post, constant, view.ranks)?;
        self.key.set(self.pre.as_slice(), self.post.as_slice())?;
        Ok(())
    }
}

// The fates so far, the kept instances, and the number of each one's key.
#[derive(Debug, Drop)]
pub(crate) struct Merging {
    keys: BTreeMap<Key, u32>,
    pub(crate) fates: Vec<Fate>,
    pub(crate) kept: PtNetBuilder,
}

impl Merging {
    // Before the first instance.
    fn new(view: &View<'_>, initial: Vec<u64>) -> Result<Merging, Memory>
        ensures keys { IfOk result (λ found. found.keys.entries ≡ []) }
        ensures fates { IfOk result (λ found. found.fates.items ≡ []) }
        ensures kept { IfOk result (λ found. found.kept ≡ system_of initial.items []) }
    {
        let count = view.net.instances() as usize;
        Ok(Merging {
            keys: BTreeMap::new(view.alloc),
            fates: Vec::with_capacity(view.alloc, count)?,
            kept: PtNetBuilder::with_capacity(view.alloc, initial, count, 0, 0)?,
        })
    }

    // Merges a live instance with the kept one of its key, or keeps it.
    fn place(&mut self, alloc: Global, origin: Origin, rows: &Restricted) -> Result<(), Memory>
        requires pre { IsRow rows.now.pre.items }
        requires post { IsRow rows.now.post.items }
        requires few { length self.old.kept.instances < 2 ^ 32 }
        requires few_inputs { sum_by (λ t. length t.pre) self.old.kept.instances + length rows.now.pre.items < 2 ^ 32 }
        requires few_outputs { sum_by (λ t. length t.post) self.old.kept.instances + length rows.now.post.items < 2 ^ 32 }
        ensures initial { OnOk result (self.new.kept.initial ≡ self.old.kept.initial) }
        ensures placed { OnOk result (Joins rows.now.key self.old.keys self.new.keys self.old.fates.items self.new.fates.items self.old.kept.instances self.new.kept.instances
            ⊎ Begins rows.now.key (instance_from origin rows.now.pre.items rows.now.post.items) self.old.keys self.new.keys self.old.fates.items self.new.fates.items self.old.kept.instances self.new.kept.instances) }
    {
        if let Some(number) = self.keys.get(&rows.key).copied() {
            self.fates.push(Fate::Merged(number))?;
            return Ok(());
        }
        let number = self.kept.instances() as u32;
        self.keys.insert(rows.key.copy(alloc)?, number)?;
        self.kept
            .push(origin, rows.pre.as_slice(), rows.post.as_slice())?;
        self.fates.push(Fate::Kept(number))?;
        Ok(())
    }

    // Takes the next instance.
    fn add(&mut self, view: &View<'_>, rows: &mut Restricted, instance: u32) -> Result<(), Memory>
        requires system { IsSystem view.now.net.now }
        requires instance { instance < size view.now.net.now }
        requires lengths { AreAsLong view.now.net.now view.now.round.now.active view.now.round.now.constant view.now.round.now.live view.now.round.now.alive }
        requires last { IsLastRound view.now.net.now view.now.round.now.active view.now.round.now.constant view.now.round.now.live view.now.round.now.alive }
        requires ranks { IsNumbered view.now.round.now.constant view.now.ranks.now }
        requires merging { IsMerging view.now.net.now view.now.round.now.constant view.now.round.now.live instance self.old.keys self.old.fates.items self.old.kept.instances }
        ensures initial { OnOk result (self.new.kept.initial ≡ self.old.kept.initial) }
        ensures merging { OnOk result (IsMerging view.now.net.now view.now.round.now.constant view.now.round.now.live (instance + 1) self.new.keys self.new.fates.items self.new.kept.instances) }
    {
        if view.round.live.has(instance) {
            rows.fill(view, instance)?;
            self.place(view.alloc, view.net.origin(instance), rows)?;
        } else if view.round.alive.has(instance) {
            self.fates.push(Fate::Blocked)?;
        } else {
            self.fates.push(Fate::Dead)?;
        }
        Ok(())
    }

    // All instances, one after another.
    pub(crate) fn of(view: &View<'_>, initial: Vec<u64>) -> Result<Merging, Memory>
        requires system { IsSystem view.now.net.now }
        requires lengths { AreAsLong view.now.net.now view.now.round.now.active view.now.round.now.constant view.now.round.now.live view.now.round.now.alive }
        requires last { IsLastRound view.now.net.now view.now.round.now.active view.now.round.now.constant view.now.round.now.live view.now.round.now.alive }
        requires ranks { IsNumbered view.now.round.now.constant view.now.ranks.now }
        ensures initial { IfOk result (λ found. found.kept.initial ≡ initial.items) }
        ensures merging { IfOk result (λ found. IsMerging view.now.net.now view.now.round.now.constant view.now.round.now.live (size view.now.net.now) found.keys found.fates.items found.kept.instances) }
    {
        let mut merging = Merging::new(view, initial)?;
        let mut rows = Restricted::new(view.alloc);
        for instance in 0..view.net.instances() {
            merging.add(view, &mut rows, instance)?;
        }
        Ok(merging)
    }
}
