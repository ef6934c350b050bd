ghost use Rattle.std.specs.Prelude.{◌<◌, ◌-◌, ◌^◌, IfOk, length};

use name_tables::{Ids, Name};
use pt_net::Layout;
use std::alloc::Global;
use wide_sums::Memory;

/// These names in order, those that stand there twice once.
pub fn names(alloc: Global, list: &[&[u8]]) -> Result<Ids, Memory> {
    let mut ids = Ids::new(alloc);
    for name in list {
        if ids.count() >= 0xffff_fffe {
            return Err(Memory);
        }
        ids.add(Name::new(alloc, name)?)?;
    }
    Ok(ids)
}

/// So many zeros.
fn zeros(alloc: Global, count: usize) -> Result<Vec<u32>, Memory> {
    let mut list = Vec::new(alloc);
    for _ in 0..count {
        list.push(0)?;
    }
    Ok(list)
}

/// A layout of these places and transitions in which no place has an instance and no transition a binding. `None` never comes.
pub fn layout_of(alloc: Global, places: Ids, transitions: Ids) -> Result<Option<Layout>, Memory> {
    let starts = zeros(alloc, places.count() as usize + 1)?;
    let bindings = zeros(alloc, transitions.count() as usize)?;
    if starts.len() != places.count() as usize + 1
        || bindings.len() != transitions.count() as usize
    {
        return Ok(None);
    }
    if starts[0] != 0 || !starts.as_slice().is_sorted() {
        return Ok(None);
    }
    Ok(Some(Layout::new(places, starts, transitions, bindings)))
}
