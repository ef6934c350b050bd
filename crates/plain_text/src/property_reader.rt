ghost use Rattle.std.specs.Prelude.{◌≡◌, ◌≤◌, IfOk, length};
ghost use Rattle.std.specs.Bool.{OnTrue};
ghost use Rattle.plain_text.specs.Properties.{property_text};

use crate::comparison::{Comparison, Differs};
use crate::faults::TextFault;
use crate::property_pieces::put_property;
use crate::source::Source;
use name_tables::Name;
use plain_model::{Count, Property};
use sqlite_items::Items;
use std::alloc::Global;

/// The property whose file has these bytes, in the canonical text (Model Checking Contest, `property-set`).
///
/// `NotYet` where they are no such text, or an id or a number in it is out of form; `Memory` where
/// there isn't the memory for the property.
pub fn read_property(alloc: Global, bytes: &[u8]) -> Result<Property, TextFault>
    ensures { IfOk result (λ property. property_text property ≡ bytes.now) }
{
    let property = candidate(alloc, bytes)?;
    if is_text_of(&property, bytes) {
        Ok(property)
    } else {
        Err(TextFault::NotYet)
    }
}

fn is_text_of(property: &Property, bytes: &[u8]) -> bool
    ensures { OnTrue result (property_text property.now ≡ bytes.now) }
{
    let mut comparison = Comparison::new(bytes);
    match put_property(&mut comparison, property) {
        Ok(()) => comparison.is(bytes),
        Err(Differs) => false,
    }
}

fn candidate(alloc: Global, bytes: &[u8]) -> Result<Property, TextFault> {
    let mut source = Source::new(bytes);
    source.expect(b"<?xml version=\"1.0\" encoding=\"UTF-8\"?>\n<property-set>\n<property>\n<id>")?;
    let id = source.id(alloc, b'<')?;
    source.expect(b"/id>\n<formula>\n<all-paths>\n<globally>\n<integer-le>\n")?;
    let left = take_count(alloc, &mut source)?;
    let right = take_count(alloc, &mut source)?;
    source.expect(
        b"</integer-le>\n</globally>\n</all-paths>\n</formula>\n</property>\n</property-set>\n",
    )?;
    source.end()?;
    Ok(Property { id, left, right })
}

fn take_count(alloc: Global, source: &mut Source<'_>) -> Result<Count, TextFault> {
    if source.skip(b"<integer-constant>") {
        let number = source.number(b'<')?;
        source.expect(b"/integer-constant>\n")?;
        return Ok(Count::Number(number));
    }
    source.expect(b"<tokens-count>\n")?;
    let places = take_places(alloc, source)?;
    source.expect(b"</tokens-count>\n")?;
    Ok(Count::Tokens(places))
}

fn take_places(alloc: Global, source: &mut Source<'_>) -> Result<Items<Name>, TextFault> {
    let mut places = Vec::new(alloc);
    while source.skip(b"<place>") {
        places.push(source.id(alloc, b'<')?)?;
        source.expect(b"/place>\n")?;
    }
    Ok(Items::from_vec(places))
}
