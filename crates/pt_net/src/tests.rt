ghost use Rattle.std.specs.Prelude.{◌≡◌, ◌^◌, ◌<◌, length, IfOk};
ghost use Rattle.pt_net.specs.Markings.{IsInRange};

use super::*;
use name_tables::Ids;
use std::alloc::Global;
use std::marker::Brand;
use std::sync::ledger::{Blank, Ledger};
use std::test::Fail;
use wide_sums::{Cell, Memory, Row, Steps};

// 2^63 - 1, the largest count.
const MOST: u64 = 9_223_372_036_854_775_807;

// A row with this count at place 0.
fn single(alloc: Global, count: u64) -> Result<Row, Memory>
    requires some { 0 < count }
    requires within { count < 2 ^ 63 }
    ensures in_range { IfOk result (λ row. IsInRange 1 row) }
    ensures cells { IfOk result (λ row. length row ≡ 1) }
{
    let mut row = Row::new(alloc);
    row.push(Cell { at: 0, count })?;
    Ok(row)
}

// A net of one place with this count, and of one instance with these rows.
fn small_net(alloc: Global, count: u64, pre: Row, post: Row) -> Result<PtNet, Memory>
    requires count { count < 2 ^ 63 }
    requires pre { IsInRange 1 pre }
    requires post { IsInRange 1 post }
    requires few_pre { length pre < 2 ^ 32 }
    requires few_post { length post < 2 ^ 32 }
    ensures places { IfOk result (λ net. length net.initial ≡ 1) }
    ensures instances { IfOk result (λ net. length net.instances ≡ 1) }
{
    let initial = Vec::from_slice(alloc, &[count])?;
    let mut instances = Vec::new(alloc);
    instances.push(Instance {
        transition: 7,
        binding: 1,
        pre,
        post,
    })?;
    PtNet::new(alloc, initial, instances)
}

#[test]
fn an_instance_fires_where_its_inputs_are_there(rt: HostRuntime) -> Result<(), Fail> {
    let alloc = rt.alloc();
    let net = small_net(alloc, 1, single(alloc, 2)?, single(alloc, 1)?)?;
    let mut marking = net.start(alloc)?;
    assert!(rt; !net.enabled(0, &marking));
    assert_eq!(rt; net.fire(0, &mut marking), Err(FireFault::NotEnabled));
    assert_eq!(rt; marking.counts(), [1].as_slice());
    let mut more = Marking::of(Vec::from_slice(alloc, &[3])?);
    assert_eq!(rt; net.fire(0, &mut more), Ok(()));
    assert_eq!(rt; more.counts(), [2].as_slice());
    Ok(())
}

#[test]
fn no_count_passes_the_largest_one(rt: HostRuntime) -> Result<(), Fail> {
    let alloc = rt.alloc();
    let net = small_net(alloc, MOST, Row::new(alloc), single(alloc, 1)?)?;
    let mut marking = net.start(alloc)?;
    assert!(rt; net.enabled(0, &marking));
    assert_eq!(rt; net.fire(0, &mut marking), Err(FireFault::Count));
    assert_eq!(rt; marking.counts(), [MOST].as_slice());
    Ok(())
}

#[test]
fn a_net_has_its_parts(rt: HostRuntime) -> Result<(), Fail> {
    let alloc = rt.alloc();
    let net = small_net(alloc, 4, single(alloc, 2)?, Row::new(alloc))?;
    let origin = Origin {
        transition: 7,
        binding: 1,
    };
    let other = Origin {
        transition: 7,
        binding: 2,
    };
    assert_eq!(rt; net.places(), 1);
    assert_eq!(rt; net.instances(), 1);
    assert_eq!(rt; net.initial(0), 4);
    assert_eq!(rt; net.origin(0), origin);
    assert_eq!(rt; net.weight(Side::Pre, 0, 0), 2);
    assert_eq!(rt; net.weight(Side::Post, 0, 0), 0);
    assert_eq!(rt;
        net.cells(Side::Pre, 0),
        [Cell { at: 0, count: 2 }].as_slice()
    );
    assert_eq!(rt; net.find(&origin), Some(0));
    assert_eq!(rt; net.find(&other), None);
    Ok(())
}

#[test]
fn a_layout_without_places_has_one_start(rt: HostRuntime) -> Result<(), Fail> {
    let alloc = rt.alloc();
    let starts = Vec::from_slice(alloc, &[0])?;
    let layout = Layout::new(Ids::new(alloc), starts, Ids::new(alloc), Vec::new(alloc));
    assert_eq!(rt; layout.places().count(), 0);
    assert_eq!(rt; layout.start(0), 0);
    assert_eq!(rt; layout.bindings().len(), 0);
    Ok(())
}

fn first_entry<L: Ledger>(blank: Blank, packed: &Packed) -> Entry
    requires name { blank.name ≡ L.name }
    requires parts { blank.parts ≡ L.parts }
    requires some { blank.parts ≡ 1 }
    requires entry { 0 < length packed.now }
{
    let mut steps = Steps::start(blank.open::<L>());
    packed.entry(0, &mut steps)
}

#[test]
fn input_entries_are_packed(rt: HostRuntime) -> Result<(), Fail> {
    let alloc = rt.alloc();
    let net = small_net(alloc, 4, single(alloc, 2)?, single(alloc, 3)?)?;
    let packed = Packed::of(alloc, &net)?;
    let entry = Entry {
        place: 0,
        instance: 0,
        weight: 2,
    };
    assert_eq!(rt; packed.entries(), 1);
    assert_eq!(rt; packed.first(0), 0);
    assert_eq!(rt; packed.first(1), 1);
    if packed.entries() > 0 {
        assert_eq!(rt; first_entry::<Brand>(Blank::new(1), &packed), entry);
    }
    Ok(())
}

fn is_shared<T: Send + Sync>() {}

#[test]
fn nets_are_sent_and_shared() {
    is_shared::<PtNet>();
    is_shared::<PtNetBuilder>();
    is_shared::<Instance>();
    is_shared::<Layout>();
    is_shared::<Marking>();
    is_shared::<Packed>();
    is_shared::<Row>();
    is_shared::<Cell>();
    is_shared::<Ids>();
}
