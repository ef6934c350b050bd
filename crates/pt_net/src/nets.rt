ghost use Rattle.std.specs.Prelude.{◌≡◌, ◌≢◌, ◌^◌, ◌<◌, length, slice_index, sum_by, All, IfOk, IfSome, IfNone, MatchBool, OnOk, OnErr};
ghost use Rattle.wide_sums.specs.Cells.{IsRow, amount};

use crate::arrays::PackedInstances;
use crate::instances::{Instance, Origin, Side};
use crate::markings::{FireFault, Marking};
use crate::rows::count_at;
use std::alloc::Global;
use std::marker::Model;
use wide_sums::{Cell, Memory};

/// A place/transition net with an initial marking.
///
/// The initial counts are at most 2^63 - 1, the origins of the instances rise strictly, and each row
/// has places of the net. There are fewer than 2^32 places, instances, input entries and output
/// entries each.
#[derive(Debug, Drop)]
pub struct PtNet {
    initial: Vec<u64>,
    instances: PackedInstances,
}

impl Model for PtNet {
    ghost use Rattle.pt_net.specs.Systems.{NetSystem, system_of, IsSystem};

    ghost Value = { NetSystem };

    ghost view = { λ n. system_of n.initial.items n.instances };

    ghost invariant = { λ n. IsSystem (system_of n.initial.items n.instances) };
}

// How many cells the input rows have together, and how many the output rows.
fn cells_of(instances: &[Instance]) -> (usize, usize)
    requires inputs { sum_by (λ t. length t.pre) instances.now < 2 ^ 32 }
    requires outputs { sum_by (λ t. length t.post) instances.now < 2 ^ 32 }
    ensures inputs { result.0 ≡ sum_by (λ t. length t.pre) instances.now }
    ensures outputs { result.1 ≡ sum_by (λ t. length t.post) instances.now }
{
    let mut inputs = 0;
    let mut outputs = 0;
    for instance in instances {
        inputs += instance.pre.cells().len();
        outputs += instance.post.cells().len();
    }
    (inputs, outputs)
}

/// A net whose instances are given one after another. No row is held apart from the net's arrays.
#[derive(Debug, Drop)]
pub struct PtNetBuilder {
    initial: Vec<u64>,
    instances: PackedInstances,
}

impl Model for PtNetBuilder {
    ghost use Rattle.pt_net.specs.Systems.{NetSystem, system_of};

    ghost Value = { NetSystem };

    ghost view = { λ n. system_of n.initial.items n.instances };
}

impl PtNetBuilder {
    ghost use Rattle.std.specs.Prelude.{ℕ, [], ◌∷◌, ◌++◌, ◌+◌, sum_by, take};
    ghost use Rattle.pt_net.specs.Systems.{IsSystem, system_of};
    ghost use Rattle.pt_net.specs.InArrays.{instance_from};

    /// A net with these initial counts and without instances, and room for so many instances, input
    /// cells and output cells. More are taken too.
    pub fn with_capacity(
        alloc: Global,
        initial: Vec<u64>,
        instances: usize,
        inputs: usize,
        outputs: usize,
    ) -> Result<PtNetBuilder, Memory>
        ensures { IfOk result (λ builder. builder ≡ system_of initial.items []) }
    {
        let instances = PackedInstances::with_capacity(alloc, instances, inputs, outputs)?;
        Ok(PtNetBuilder { initial, instances })
    }

    /// The number of instances so far.
    pub fn instances(&self) -> usize
        ensures { result ≡ length self.now.instances }
    {
        self.instances.count()
    }

    /// Puts an instance with these rows behind the others. After `Memory` the builder is unchanged.
    pub fn push(&mut self, origin: Origin, inputs: &[Cell], outputs: &[Cell]) -> Result<(), Memory>
        requires inputs { IsRow inputs.now }
        requires outputs { IsRow outputs.now }
        requires few_inputs { sum_by (λ t. length t.pre) self.old.instances + length inputs.now < 2 ^ 32 }
        requires few_outputs { sum_by (λ t. length t.post) self.old.instances + length outputs.now < 2 ^ 32 }
        ensures ok { OnOk result (self.new ≡ system_of self.old.initial (self.old.instances ++ instance_from origin inputs.now outputs.now ∷ [])) }
        ensures err { OnErr result (self.new ≡ self.old) }
    {
        self.instances.push(origin, inputs, outputs)
    }

    /// How many cells the input rows have together.
    pub fn input_cells(&self) -> usize
        ensures { result ≡ sum_by (λ t. length t.pre) self.now.instances }
    {
        self.instances.input_cells()
    }

    /// How many cells the output rows have together.
    pub fn output_cells(&self) -> usize
        ensures { result ≡ sum_by (λ t. length t.post) self.now.instances }
    {
        self.instances.output_cells()
    }

    /// Puts the instances of another builder behind these, in their order. The initial counts stay
    /// as they are. After `Memory` only the first ones of `part` may stand behind these.
    pub fn append(&mut self, part: &PtNetBuilder) -> Result<(), Memory>
        requires few { length part.now.instances < 2 ^ 32 }
        requires few_inputs { sum_by (λ t. length t.pre) self.old.instances + sum_by (λ t. length t.pre) part.now.instances < 2 ^ 32 }
        requires few_outputs { sum_by (λ t. length t.post) self.old.instances + sum_by (λ t. length t.post) part.now.instances < 2 ^ 32 }
        ensures ok { OnOk result (self.new ≡ system_of self.old.initial (self.old.instances ++ part.now.instances)) }
        ensures err { OnErr result ((n : ℕ) × (self.new ≡ system_of self.old.initial (self.old.instances ++ take n part.now.instances))) }
    {
        let rows = &part.instances;
        for instance in 0..rows.count() as u32 {
            let inputs = rows.cells(Side::Pre, instance);
            let outputs = rows.cells(Side::Post, instance);
            self.push(rows.origin(instance), inputs, outputs)?;
        }
        Ok(())
    }

    /// Takes these counts in the place of the initial ones.
    pub fn set_initial(&mut self, initial: Vec<u64>)
        ensures { self.new ≡ system_of initial.items self.old.instances }
    {
        self.initial = initial;
    }

    /// The net. Its initial counts are at most 2^63 - 1, the origins rise strictly, and each row has
    /// places of the net; there are fewer than 2^32 places and instances.
    pub fn finish(self) -> PtNet
        requires { IsSystem self }
        ensures { result ≡ self }
    {
        let PtNetBuilder { initial, instances } = self;
        PtNet { initial, instances }
    }
}

impl PtNet {
    ghost use Rattle.pt_net.specs.Instances.{origin_of, row_of};
    ghost use Rattle.pt_net.specs.Markings.{Covers, IsShort, IsFull, IsInRange};
    ghost use Rattle.pt_net.specs.Firing.{Fires};
    ghost use Rattle.pt_net.specs.Systems.{IsSystem, system_of, instance_at};

    /// The net with these initial counts and instances.
    pub fn new(alloc: Global, initial: Vec<u64>, instances: Vec<Instance>) -> Result<PtNet, Memory>
        requires { IsSystem (system_of initial.items instances.items) }
        ensures { IfOk result (λ net. net ≡ system_of initial.items instances.items) }
    {
        let (inputs, outputs) = cells_of(instances.as_slice());
        let mut builder = PtNetBuilder::with_capacity(
            alloc,
            initial,
            instances.len(),
            inputs,
            outputs,
        )?;
        for instance in instances.as_slice() {
            builder.push(
                instance.origin(),
                instance.pre.cells(),
                instance.post.cells(),
            )?;
        }
        Ok(builder.finish())
    }

    /// The initial counts of all places.
    pub fn initial_counts(&self) -> &[u64]
        ensures counts { result.now ≡ self.now.initial }
        ensures system { IsSystem self.now }
    {
        self.initial.as_slice()
    }

    /// The number of places.
    pub fn places(&self) -> u32
        ensures { result ≡ length self.now.initial }
    {
        self.initial.len() as u32
    }

    /// The number of instances.
    pub fn instances(&self) -> u32
        ensures { result ≡ length self.now.instances }
    {
        self.instances.count() as u32
    }

    /// The initial count of a place.
    pub fn initial(&self, place: u32) -> u64
        requires { place < length self.now.initial }
        ensures count { result ≡ slice_index self.now.initial place }
        ensures within { result < 2 ^ 63 }
    {
        self.initial[place as usize]
    }

    /// The transition and the binding of an instance.
    pub fn origin(&self, instance: u32) -> Origin
        requires { instance < length self.now.instances }
        ensures { result ≡ origin_of (instance_at self.now instance) }
    {
        self.instances.origin(instance)
    }

    /// The count of a place in a row of an instance, 0 where there is no entry.
    pub fn weight(&self, side: Side, instance: u32, place: u32) -> u64
        requires { instance < length self.now.instances }
        ensures count { result ≡ amount place (row_of side (instance_at self.now instance)) }
        ensures within { result < 2 ^ 63 }
    {
        count_at(self.instances.cells(side, instance), place)
    }

    /// The cells of a row of an instance, by rising place.
    pub fn cells(&self, side: Side, instance: u32) -> &[Cell]
        requires { instance < length self.now.instances }
        ensures cells { result.now ≡ row_of side (instance_at self.now instance) }
        ensures row { IsRow result.now }
        ensures in_range { IsInRange (length self.now.initial) result.now }
    {
        self.instances.cells(side, instance)
    }

    /// The instance that comes from `origin`. `None` comes exactly where there is none.
    pub fn find(&self, origin: &Origin) -> Option<u32>
        ensures within { IfSome result (λ i. i < length self.now.instances) }
        ensures found { IfSome result (λ i. origin_of (instance_at self.now i) ≡ origin.now) }
        ensures none { IfNone result (All (λ t. origin_of t ≢ origin.now) self.now.instances) }
    {
        self.instances.find(origin)
    }

    /// The initial marking.
    pub fn start(&self, alloc: Global) -> Result<Marking, Memory>
        ensures { IfOk result (λ marking. marking ≡ self.now.initial) }
    {
        let counts = Vec::from_slice(alloc, self.initial.as_slice())?;
        Ok(Marking::of(counts))
    }

    /// Whether an instance is enabled: the marking has at each place what it takes there.
    pub fn enabled(&self, instance: u32, marking: &Marking) -> bool
        requires instance { instance < length self.now.instances }
        requires places { length marking.now ≡ length self.now.initial }
        ensures { MatchBool result (Covers marking.now (instance_at self.now instance).pre)
            (IsShort marking.now (instance_at self.now instance).pre) }
    {
        marking.covers(self.cells(Side::Pre, instance))
    }

    /// Fires an instance: takes its input counts away and adds its output counts.
    ///
    /// `NotEnabled` comes exactly where it isn't enabled, then `Count` exactly where a count would
    /// pass 2^63 - 1. The marking is then unchanged.
    pub fn fire(&self, instance: u32, marking: &mut Marking) -> Result<(), FireFault>
        requires instance { instance < length self.now.instances }
        requires places { length marking.old ≡ length self.now.initial }
        ensures fires { OnOk result (Fires marking.old (instance_at self.now instance) marking.new) }
        ensures within { OnOk result (All (λ k. k < 2 ^ 63) marking.new) }
        ensures not_enabled { result ≡ Err FireFault.NotEnabled
            → IsShort marking.old (instance_at self.now instance).pre }
        ensures count { result ≡ Err FireFault.Count
            → Covers marking.old (instance_at self.now instance).pre
            × IsFull marking.old (instance_at self.now instance).pre (instance_at self.now instance).post }
        ensures err { OnErr result (marking.new ≡ marking.old) }
    {
        marking.fire(
            self.cells(Side::Pre, instance),
            self.cells(Side::Post, instance),
        )
    }
}
