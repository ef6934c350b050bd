ghost use Rattle.std.specs.Prelude.{◌≡◌, ◌++◌, [], OnOk, codes, flat_map};
ghost use Rattle.plain_text.specs.Markup.{element, parent_element};
ghost use Rattle.plain_text.specs.Properties.{property_text};
ghost use Rattle.plain_text.specs.PropertyParts.{count_text, formula_text, listed_place};

use crate::comparison::{Comparison, Differs};
use name_tables::Name;
use plain_model::{Count, Property};

/// Appends the canonical text of the property.
pub fn put_property(comparison: &mut Comparison<'_>, property: &Property) -> Result<(), Differs>
    ensures { OnOk result (comparison.new ≡ comparison.old ++ property_text property.now) }
{
    comparison.put(b"<?xml version=\"1.0\" encoding=\"UTF-8\"?>\n<property-set>\n<property>\n")?;
    comparison.put_leaf(b"id", property.id.bytes())?;
    put_formula(comparison, &property.left, &property.right)?;
    comparison.put(b"</property>\n")?;
    comparison.put(b"</property-set>\n")?;
    Ok(())
}

#[tactic(auto, unfolding(crate::specs::PropertyParts::formula_text))]
fn put_formula(comparison: &mut Comparison<'_>, left: &Count, right: &Count) -> Result<(), Differs>
    ensures { OnOk result (comparison.new ≡ comparison.old ++ formula_text left.now right.now) }
{
    comparison.put(b"<formula>\n<all-paths>\n<globally>\n<integer-le>\n")?;
    put_count(comparison, left)?;
    put_count(comparison, right)?;
    comparison.put(b"</integer-le>\n</globally>\n</all-paths>\n</formula>\n")?;
    Ok(())
}

#[tactic(auto, unfolding(crate::specs::PropertyParts::count_text))]
fn put_count(comparison: &mut Comparison<'_>, count: &Count) -> Result<(), Differs>
    ensures { OnOk result (comparison.new ≡ comparison.old ++ count_text count.now) }
{
    match count {
        Count::Number(number) => comparison.put_number_leaf(b"integer-constant", *number),
        Count::Tokens(ids) => put_tokens(comparison, ids.as_slice()),
    }
}

fn put_tokens(comparison: &mut Comparison<'_>, ids: &[Name]) -> Result<(), Differs>
    ensures { OnOk result (comparison.new ≡ comparison.old ++ element (codes "tokens-count") [] (flat_map listed_place ids.now)) }
{
    if ids.is_empty() {
        comparison.put(b"<tokens-count/>\n")
    } else {
        put_some_tokens(comparison, ids)
    }
}

fn put_some_tokens(comparison: &mut Comparison<'_>, ids: &[Name]) -> Result<(), Differs>
    ensures { OnOk result (comparison.new ≡ comparison.old ++ parent_element (codes "tokens-count") [] (flat_map listed_place ids.now)) }
{
    comparison.put(b"<tokens-count>\n")?;
    put_places(comparison, ids)?;
    comparison.put(b"</tokens-count>\n")?;
    Ok(())
}

fn put_places(comparison: &mut Comparison<'_>, ids: &[Name]) -> Result<(), Differs>
    ensures { OnOk result (comparison.new ≡ comparison.old ++ flat_map listed_place ids.now) }
{
    for id in ids {
        put_place(comparison, id)?;
    }
    Ok(())
}

#[tactic(auto, unfolding(crate::specs::PropertyParts::listed_place))]
fn put_place(comparison: &mut Comparison<'_>, id: &Name) -> Result<(), Differs>
    ensures { OnOk result (comparison.new ≡ comparison.old ++ listed_place id.now) }
{
    comparison.put_leaf(b"place", id.bytes())
}
