ghost use Rattle.std.specs.Prelude.{◌≡◌, ◌++◌, ◌∷◌, [], OnOk};

use sqlite_items::Items;
use std::alloc::Global;
use wide_sums::Memory;

/// Puts an item behind the others. The first one takes room for itself alone, for most lists of a document have no other.
pub fn put<T: Drop>(alloc: Global, items: &mut Items<T>, item: T) -> Result<(), Memory>
    ensures { OnOk result (items.new ≡ items.old ++ item ∷ []) }
{
    if items.is_empty() {
        let mut first = Vec::with_capacity(alloc, 1)?;
        first.push(item)?;
        *items = Items::from_vec(first);
        return Ok(());
    }
    items.push(item)?;
    Ok(())
}
