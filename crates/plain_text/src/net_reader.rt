ghost use Rattle.std.specs.Prelude.{◌≡◌, ◌≤◌, IfOk, length};
ghost use Rattle.std.specs.Bool.{OnTrue};
ghost use Rattle.plain_text.specs.Nets.{net_text};

use crate::comparison::{Comparison, Differs};
use crate::faults::TextFault;
use crate::net_pieces::put_net;
use crate::source::Source;
use name_tables::Name;
use plain_model::{Arc, Place, PlainNet};
use sqlite_items::Items;
use std::alloc::Global;

/// The net whose canonical text these bytes are (ISO/IEC 15909-2, `ptnet`).
///
/// `NotYet` where they are no such text, or an id or a number in it is out of form; `Memory` where
/// there isn't the memory for the net.
pub fn read_net(alloc: Global, bytes: &[u8]) -> Result<PlainNet, TextFault>
    ensures { IfOk result (λ net. net_text net ≡ bytes.now) }
{
    let net = candidate(alloc, bytes)?;
    if is_text_of(&net, bytes) {
        Ok(net)
    } else {
        Err(TextFault::NotYet)
    }
}

fn is_text_of(net: &PlainNet, bytes: &[u8]) -> bool
    ensures { OnTrue result (net_text net.now ≡ bytes.now) }
{
    let mut comparison = Comparison::new(bytes);
    match put_net(&mut comparison, net) {
        Ok(()) => comparison.is(bytes),
        Err(Differs) => false,
    }
}

fn candidate(alloc: Global, bytes: &[u8]) -> Result<PlainNet, TextFault> {
    let mut source = Source::new(bytes);
    source.expect(
        b"<?xml version=\"1.0\" encoding=\"UTF-8\"?>\n<pnml xmlns=\"http://www.pnml.org/version-2009/grammar/pnml\">\n<net id=\"",
    )?;
    let id = source.id(alloc, b'"')?;
    source.expect(b" type=\"http://www.pnml.org/version-2009/grammar/ptnet\">\n")?;
    let net = take_page(alloc, id, &mut source)?;
    source.expect(b"</net>\n</pnml>\n")?;
    source.end()?;
    Ok(net)
}

fn take_page(alloc: Global, id: Name, source: &mut Source<'_>) -> Result<PlainNet, TextFault> {
    if source.skip(b"<page id=\"page\"/>\n") {
        return Ok(PlainNet {
            id,
            places: Items::new(alloc),
            transitions: Items::new(alloc),
            arcs: Items::new(alloc),
        });
    }
    source.expect(b"<page id=\"page\">\n")?;
    let places = take_places(alloc, source)?;
    let transitions = take_transitions(alloc, source)?;
    let arcs = take_arcs(alloc, source)?;
    source.expect(b"</page>\n")?;
    Ok(PlainNet {
        id,
        places,
        transitions,
        arcs,
    })
}

fn take_places(alloc: Global, source: &mut Source<'_>) -> Result<Items<Place>, TextFault> {
    let mut places = Vec::new(alloc);
    while source.skip(b"<place id=\"") {
        places.push(take_place(alloc, source)?)?;
    }
    Ok(Items::from_vec(places))
}

fn take_place(alloc: Global, source: &mut Source<'_>) -> Result<Place, TextFault>
    ensures { length source.new ≤ length source.old }
{
    let id = source.id(alloc, b'"')?;
    let marking = take_marking(source)?;
    Ok(Place { id, marking })
}

fn take_marking(source: &mut Source<'_>) -> Result<u64, TextFault>
    ensures { length source.new ≤ length source.old }
{
    if source.skip(b"/>\n") {
        return Ok(0);
    }
    source.expect(b">\n<initialMarking>\n<text>")?;
    let marking = source.number(b'<')?;
    source.expect(b"/text>\n</initialMarking>\n</place>\n")?;
    Ok(marking)
}

fn take_transitions(alloc: Global, source: &mut Source<'_>) -> Result<Items<Name>, TextFault> {
    let mut transitions = Vec::new(alloc);
    while source.skip(b"<transition id=\"") {
        transitions.push(source.id(alloc, b'"')?)?;
        source.expect(b"/>\n")?;
    }
    Ok(Items::from_vec(transitions))
}

fn take_arcs(alloc: Global, source: &mut Source<'_>) -> Result<Items<Arc>, TextFault> {
    let mut arcs = Vec::new(alloc);
    while source.skip(b"<arc id=\"") {
        arcs.push(take_arc(alloc, source)?)?;
    }
    Ok(Items::from_vec(arcs))
}

fn take_arc(alloc: Global, source: &mut Source<'_>) -> Result<Arc, TextFault>
    ensures { length source.new ≤ length source.old }
{
    let id = source.id(alloc, b'"')?;
    source.expect(b" source=\"")?;
    let from = source.id(alloc, b'"')?;
    source.expect(b" target=\"")?;
    let target = source.id(alloc, b'"')?;
    let weight = take_weight(source)?;
    Ok(Arc {
        id,
        source: from,
        target,
        weight,
    })
}

fn take_weight(source: &mut Source<'_>) -> Result<u64, TextFault>
    ensures { length source.new ≤ length source.old }
{
    if source.skip(b"/>\n") {
        return Ok(1);
    }
    source.expect(b">\n<inscription>\n<text>")?;
    let weight = source.number(b'<')?;
    source.expect(b"/text>\n</inscription>\n</arc>\n")?;
    Ok(weight)
}
