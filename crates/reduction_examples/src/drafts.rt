ghost use Rattle.std.specs.Prelude.{◌≡◌, ◌<◌, ◌≤◌, ◌+◌, ◌^◌, length, All, IfOk, OnOk};
ghost use Rattle.pt_net.specs.Markings.{IsInRange};
ghost use Rattle.pt_net.specs.Systems.{places, size};
ghost use Rattle.reduction_examples.specs.Drafts.{IsDraft};

use pt_net::{Origin, PtNet, PtNetBuilder};
use std::alloc::Global;
use wide_sums::{Cell, Memory, Row};

const MOST: u64 = 9_223_372_036_854_775_807;

/// A net that is made instance by instance. Instance `i` is that of transition `i`.
#[derive(Debug, Drop)]
pub struct Draft {
    places: u32,
    builder: PtNetBuilder,
}

// Puts a cell at the end of a row, if it can stand there.
fn put(row: &mut Row, cell: Cell, next: u32, places: u32) -> Result<u32, Memory>
    requires below { All (λ c. c.at < next) row.old }
    requires within { next ≤ places }
    ensures in_range { OnOk result (All (λ c. c.at < places) row.new) }
    ensures next { IfOk result (λ after. after ≤ places) }
    ensures below { IfOk result (λ after. All (λ c. c.at < after) row.new) }
    ensures more { OnOk result (length row.new ≤ length row.old + 1) }
{
    if cell.at < next || cell.at >= places || cell.count == 0 || cell.count > MOST {
        return Ok(next);
    }
    row.push(cell)?;
    Ok(cell.at + 1)
}

// The row of these cells, without those that no row of the net can have.
fn row(alloc: Global, places: u32, cells: &[Cell]) -> Result<Row, Memory>
    ensures in_range { IfOk result (λ row. IsInRange places row) }
    ensures few { IfOk result (λ row. length row ≤ length cells.now) }
{
    let mut row = Row::new(alloc);
    let mut next = 0;
    for cell in cells {
        next = put(&mut row, *cell, next, places)?;
    }
    Ok(row)
}

impl Draft {
    /// A net of these places, each with at most 2^63 - 1 tokens, without instances, and room for so
    /// many with an input and an output each.
    pub fn new(alloc: Global, initial: Vec<u64>, instances: usize) -> Result<Draft, Memory>
        requires counts { All (λ k. k < 2 ^ 63) initial.items }
        requires few { length initial.items < 2 ^ 32 }
        ensures draft { IfOk result (λ draft. IsDraft draft.places draft.builder) }
        ensures none { IfOk result (λ draft. size draft.builder ≡ 0) }
        ensures places { IfOk result (λ draft. places draft.builder ≡ length initial.items) }
    {
        let places = initial.len() as u32;
        let builder = PtNetBuilder::with_capacity(alloc, initial, instances, instances, instances)?;
        Ok(Draft { places, builder })
    }

    /// Adds an instance with at most two inputs and two outputs. Cells that no row of the net can
    /// have are passed over.
    pub fn add(&mut self, alloc: Global, pre: &[Cell], post: &[Cell]) -> Result<(), Memory>
        requires pre { length pre.now ≤ 2 }
        requires post { length post.now ≤ 2 }
        requires few { size self.old.builder < 2 ^ 30 }
        requires draft { IsDraft self.old.places self.old.builder }
        ensures draft { OnOk result (IsDraft self.new.places self.new.builder) }
        ensures more { OnOk result (size self.new.builder ≡ size self.old.builder + 1) }
        ensures same { OnOk result (places self.new.builder ≡ places self.old.builder) }
    {
        let origin = Origin {
            transition: self.builder.instances() as u32,
            binding: 0,
        };
        let pre = row(alloc, self.places, pre)?;
        let post = row(alloc, self.places, post)?;
        self.builder.push(origin, pre.cells(), post.cells())?;
        Ok(())
    }

    /// The net.
    pub fn net(self) -> PtNet
        requires draft { IsDraft self.places self.builder }
        requires few { size self.builder < 2 ^ 31 }
        ensures places { places result ≡ places self.builder }
        ensures size { size result ≡ size self.builder }
    {
        let Draft { builder, .. } = self;
        builder.finish()
    }
}
