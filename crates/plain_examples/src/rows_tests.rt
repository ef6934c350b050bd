use name_tables::Name;
use plain_model::{Arc, Place, PlainNet};
use plain_rows::{BuildFault, build};
use pt_net::Side;
use sqlite_items::Items;
use std::alloc::Global;
use std::test::Fail;
use wide_sums::{Cell, Memory};

// An arc of a net file.
fn arc(alloc: Global, id: &[u8], ends: (&[u8], &[u8]), weight: u64) -> Result<Arc, Memory> {
    Ok(Arc {
        id: Name::new(alloc, id)?,
        source: Name::new(alloc, ends.0)?,
        target: Name::new(alloc, ends.1)?,
        weight,
    })
}

// The ring of two places, on which one token goes round.
fn ring(alloc: Global) -> Result<PlainNet, Memory> {
    let mut places = Items::new(alloc);
    for (id, marking) in [(b"p0", 1), (b"p1", 0)] {
        let id = Name::new(alloc, id.as_slice())?;
        places.push(Place { id, marking })?;
    }
    let mut transitions = Items::new(alloc);
    transitions.push(Name::new(alloc, b"t")?)?;
    transitions.push(Name::new(alloc, b"u")?)?;
    let mut arcs = Items::new(alloc);
    arcs.push(arc(alloc, b"a1", (b"p0", b"t"), 1)?)?;
    arcs.push(arc(alloc, b"a2", (b"t", b"p1"), 1)?)?;
    arcs.push(arc(alloc, b"a3", (b"p1", b"u"), 1)?)?;
    arcs.push(arc(alloc, b"a4", (b"u", b"p0"), 1)?)?;
    Ok(PlainNet {
        id: Name::new(alloc, b"n")?,
        places,
        transitions,
        arcs,
    })
}

#[test]
fn the_ring_has_one_cell_in_each_row(rt: HostRuntime) -> Result<(), Fail> {
    let net = ring(rt.alloc())?;
    let rows = build(rt.alloc(), &net)?;
    assert_eq!(rt; rows.places.count(), 2);
    assert_eq!(rt; rows.places.find(b"p1"), Some(1));
    assert_eq!(rt; rows.places.find(b"t"), None);
    assert!(rt; rows.net.places() == 2);
    assert!(rt; rows.net.instances() == 2);
    assert_eq!(rt; rows.net.initial(0), 1);
    assert_eq!(rt; rows.net.initial(1), 0);
    let (first, second) = (Cell { at: 0, count: 1 }, Cell { at: 1, count: 1 });
    assert_eq!(rt; rows.net.cells(Side::Pre, 0), [first].as_slice());
    assert_eq!(rt; rows.net.cells(Side::Post, 0), [second].as_slice());
    assert_eq!(rt; rows.net.cells(Side::Pre, 1), [second].as_slice());
    assert_eq!(rt; rows.net.cells(Side::Post, 1), [first].as_slice());
    Ok(())
}

#[test]
fn arcs_in_another_order_make_rising_rows(rt: HostRuntime) -> Result<(), Fail> {
    let mut net = ring(rt.alloc())?;
    net.arcs.push(arc(rt.alloc(), b"a5", (b"p0", b"u"), 7)?)?;
    let rows = build(rt.alloc(), &net)?;
    assert!(rt; rows.net.instances() == 2);
    let (first, second) = (Cell { at: 0, count: 7 }, Cell { at: 1, count: 1 });
    assert_eq!(rt; rows.net.cells(Side::Pre, 1), [first, second].as_slice());
    Ok(())
}

#[test]
fn other_nets_are_not_yet_taken(rt: HostRuntime) -> Result<(), Fail> {
    let more: [(&[u8], (&[u8], &[u8]), u64); 7] = [
        (b"a5", (b"p0", b"t"), 1),
        (b"a5", (b"p0", b"x"), 1),
        (b"a5", (b"p0", b"p1"), 1),
        (b"a5", (b"t", b"u"), 1),
        (b"u", (b"p0", b"u"), 1),
        (b"a 5", (b"p0", b"u"), 1),
        (b"a5", (b"p0", b"u"), 0),
    ];
    for (id, ends, weight) in more {
        let mut net = ring(rt.alloc())?;
        net.arcs.push(arc(rt.alloc(), id, ends, weight)?)?;
        assert_eq!(rt; build(rt.alloc(), &net).err(), Some(BuildFault::NotYet));
    }
    Ok(())
}
