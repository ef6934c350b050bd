ghost use Rattle.std.specs.Prelude.{◌≡◌, ◌≢◌, ◌+◌, ◌<◌, ◌≤◌, ◌^◌, [], ◌∷◌, ◌++◌, length, slice_index, slice_range, All, AllPairs, IfOk, IfSome, IfNone, OnOk, OnErr, sum_by, vec_len, vec_capacity};
ghost use Rattle.wide_sums.specs.Cells.{IsRow};
ghost use Rattle.pt_net.specs.InArrays.{array_of, start_of, ends_of};
ghost use Rattle.pt_net.specs.Instances.{IsBefore};

use crate::instances::{Origin, Side};
use std::alloc::Global;
use std::marker::Model;
use wide_sums::{Cell, Memory};

/// Where an instance comes from, and where its rows end in the arrays.
#[derive(Clone, Copy, Debug, PartialEq, Eq)]
pub(crate) struct Head {
    /// The number of its transition.
    pub(crate) transition: u32,
    /// Its binding index.
    pub(crate) binding: u32,
    /// The end of its input row, which is the start of the next one.
    pub(crate) inputs_end: u32,
    /// The end of its output row.
    pub(crate) outputs_end: u32,
}

/// Instances whose rows stand one after another, all input rows in one array and all output rows in
/// another.
#[derive(Debug, Drop)]
pub(crate) struct PackedInstances {
    heads: Vec<Head>,
    inputs: Vec<Cell>,
    outputs: Vec<Cell>,
}

impl Model for PackedInstances {
    ghost use Rattle.std.specs.Prelude.{List};
    ghost use Rattle.pt_net.specs.declared.instances.Instance.{Instance};
    ghost use Rattle.pt_net.specs.InArrays.{instances_in, AreInArrays};

    ghost Value = { List Instance };

    ghost view = { λ p. instances_in p.heads.items p.inputs.items p.outputs.items };

    ghost invariant = { λ p. AreInArrays p.heads.items p.inputs.items p.outputs.items };
}

impl Head {
    ghost use Rattle.pt_net.specs.InArrays.{end_of, origin_from};

    // The transition and the binding.
    fn origin(&self) -> Origin
        ensures { result ≡ origin_from self.now }
    {
        Origin {
            transition: self.transition,
            binding: self.binding,
        }
    }

    // The end of the row of that side.
    fn end(&self, side: Side) -> u32
        ensures { result ≡ end_of side self.now }
    {
        match side {
            Side::Pre => self.inputs_end,
            Side::Post => self.outputs_end,
        }
    }
}

// Where the row of an instance starts: at the end of the one before.
fn start_of(heads: &[Head], side: Side, instance: u32) -> u32
    requires { instance < length heads.now }
    ensures { result ≡ start_of (ends_of side heads.now) instance }
{
    if instance == 0 {
        return 0;
    }
    heads[instance as usize - 1].end(side)
}

// Where the row of an instance starts and ends.
fn bounds(heads: &[Head], side: Side, instance: u32) -> (usize, usize)
    requires { instance < length heads.now }
    ensures start { result.0 ≡ start_of (ends_of side heads.now) instance }
    ensures end { result.1 ≡ slice_index (ends_of side heads.now) instance }
{
    let start = start_of(heads, side, instance);
    let end = heads[instance as usize].end(side);
    (start as usize, end as usize)
}

// The array of that side.
fn array_of<'a>(side: Side, inputs: &'a [Cell], outputs: &'a [Cell]) -> &'a [Cell]
    ensures { result.now ≡ array_of side inputs.now outputs.now }
{
    match side {
        Side::Pre => inputs,
        Side::Post => outputs,
    }
}

// The cells from the start up to the end.
fn part(cells: &[Cell], start: usize, end: usize) -> &[Cell]
    requires order { start ≤ end }
    requires within { end ≤ length cells.now }
    ensures { result.now ≡ slice_range cells.now start end }
{
    &cells[start..end]
}

// Puts a row into room that is there.
fn put_row(cells: &mut Vec<Cell>, row: &[Cell])
    requires { vec_len cells.old + length row.now ≤ vec_capacity cells.old }
    ensures { cells.new.items ≡ cells.old.items ++ row.now }
{
    match cells.extend_from_slice(row) {
        Ok(()) => {}
        Err(_) => unreachable!(),
    }
}

impl PackedInstances {
    ghost use Rattle.pt_net.specs.Instances.{origin_of, row_of};
    ghost use Rattle.pt_net.specs.InArrays.{instance_from, one_at};

    /// No instances, and room for so many instances, input cells and output cells.
    pub(crate) fn with_capacity(
        alloc: Global,
        instances: usize,
        inputs: usize,
        outputs: usize,
    ) -> Result<PackedInstances, Memory>
        ensures { IfOk result (λ found. found ≡ []) }
    {
        Ok(PackedInstances {
            heads: Vec::with_capacity(alloc, instances)?,
            inputs: Vec::with_capacity(alloc, inputs)?,
            outputs: Vec::with_capacity(alloc, outputs)?,
        })
    }

    /// Puts an instance with these rows at the end.
    pub(crate) fn push(
        &mut self,
        origin: Origin,
        inputs: &[Cell],
        outputs: &[Cell],
    ) -> Result<(), Memory>
        requires inputs { IsRow inputs.now }
        requires outputs { IsRow outputs.now }
        requires few_inputs { sum_by (λ t. length t.pre) self.old + length inputs.now < 2 ^ 32 }
        requires few_outputs { sum_by (λ t. length t.post) self.old + length outputs.now < 2 ^ 32 }
        ensures ok { OnOk result (self.new ≡ self.old ++ instance_from origin inputs.now outputs.now ∷ []) }
        ensures err { OnErr result (self.new ≡ self.old) }
    {
        self.inputs.reserve(inputs.len())?;
        self.outputs.reserve(outputs.len())?;
        self.heads.push(Head {
            transition: origin.transition,
            binding: origin.binding,
            inputs_end: (self.inputs.len() + inputs.len()) as u32,
            outputs_end: (self.outputs.len() + outputs.len()) as u32,
        })?;
        put_row(&mut self.inputs, inputs);
        put_row(&mut self.outputs, outputs);
        Ok(())
    }

    /// How many instances there are.
    pub(crate) fn count(&self) -> usize
        ensures { result ≡ length self.now }
    {
        self.heads.len()
    }

    /// How many cells the input rows have together.
    pub(crate) fn input_cells(&self) -> usize
        ensures { result ≡ sum_by (λ t. length t.pre) self.now }
    {
        self.inputs.len()
    }

    /// How many cells the output rows have together.
    pub(crate) fn output_cells(&self) -> usize
        ensures { result ≡ sum_by (λ t. length t.post) self.now }
    {
        self.outputs.len()
    }

    /// The transition and the binding of an instance.
    pub(crate) fn origin(&self, instance: u32) -> Origin
        requires { instance < length self.now }
        ensures { result ≡ origin_of (one_at self.now instance) }
    {
        self.heads[instance as usize].origin()
    }

    /// The cells of a row of an instance, by rising place.
    pub(crate) fn cells(&self, side: Side, instance: u32) -> &[Cell]
        requires { instance < length self.now }
        ensures cells { result.now ≡ row_of side (one_at self.now instance) }
        ensures row { IsRow result.now }
    {
        let (start, end) = bounds(self.heads.as_slice(), side, instance);
        let cells = array_of(side, self.inputs.as_slice(), self.outputs.as_slice());
        part(cells, start, end)
    }

    /// The instance that comes from `origin`. `None` comes where there is none and the origins rise.
    pub(crate) fn find(&self, origin: &Origin) -> Option<u32>
        requires few { length self.now < 2 ^ 32 }
        requires rising { AllPairs (λ s t. IsBefore (origin_of s) (origin_of t)) self.now }
        ensures within { IfSome result (λ i. i < length self.now) }
        ensures found { IfSome result (λ i. origin_of (one_at self.now i) ≡ origin.now) }
        ensures none { IfNone result (All (λ t. origin_of t ≢ origin.now) self.now) }
    {
        match self
            .heads
            .binary_search_by_key(origin, |head| head.origin())
        {
            Ok(found) => Some(found as u32),
            Err(_) => None,
        }
    }
}
