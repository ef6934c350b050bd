ghost use Rattle.std.specs.Prelude.{◌≡◌, replicate, IfOk};

use std::alloc::Global;
use wide_sums::Memory;

/// A mark for each of so many things, none of them set: the mark 0.
pub fn no_marks(alloc: Global, count: usize) -> Result<Vec<u32>, Memory>
    ensures { IfOk result (λ marks. marks.items ≡ replicate count 0) }
{
    Ok(vec![in alloc; 0u32; count]?)
}
