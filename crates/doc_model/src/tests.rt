ghost use Rattle.std.specs.Prelude.{◌≡◌, ◌∷◌, [], codes};
ghost use Rattle.doc_model.specs.Texts.{document_text};
ghost use Rattle.doc_model.specs.Trees.{attribute, element};

use crate::{Attribute, Element, TextWriter, write};
use name_tables::Name;
use sqlite_items::Items;
use std::alloc::Global;
use std::test::Fail;
use wide_sums::Memory;

fn leaf(alloc: Global, name: &[u8], text: &[u8]) -> Result<Element, Memory> {
    Ok(Element {
        at: 0,
        name: Name::new(alloc, name)?,
        attributes: Items::new(alloc),
        children: Items::new(alloc),
        text: Name::new(alloc, text)?,
    })
}

/// The same text, by the definition.
fn example_text()
    ensures { document_text (element (codes "a") (attribute (codes "b") (codes "1A") ∷ []) [] (codes " x y")) ≡ codes "<?xml version=\"1.0\" encoding=\"UTF-8\"?>\n<a b=\"1A\"> x y</a>\n" }
{}

#[test]
fn an_element_is_written_with_its_attribute_and_its_text(rt: HostRuntime) -> Result<(), Fail> {
    let mut element = leaf(rt.alloc(), b"a", b" x y")?;
    element.attributes.push(Attribute {
        name: Name::new(rt.alloc(), b"b")?,
        value: Name::new(rt.alloc(), b"1A")?,
    })?;
    let text = write(rt.alloc(), &element)?;
    example_text();
    let wanted = b"<?xml version=\"1.0\" encoding=\"UTF-8\"?>\n<a b=\"1A\"> x y</a>\n";
    assert_eq!(rt; text.as_slice(), wanted.as_slice());
    Ok(())
}

#[test]
fn children_stand_on_lines_of_their_own(rt: HostRuntime) -> Result<(), Fail> {
    let mut root = leaf(rt.alloc(), b"r", b"")?;
    root.children.push(leaf(rt.alloc(), b"k", b"")?)?;
    root.children.push(leaf(rt.alloc(), b"l", b"t")?)?;
    let mut writer = TextWriter::new(rt.alloc());
    writer.element(&root)?;
    assert_eq!(rt;
        writer.into_bytes().as_slice(),
        b"<r>\n<k/>\n<l>t</l>\n</r>\n".as_slice()
    );
    Ok(())
}

#[test]
fn values_and_texts_are_escaped(rt: HostRuntime) -> Result<(), Fail> {
    let mut writer = TextWriter::new(rt.alloc());
    writer.escaped(b"a&b<c>d\"e\tf\ng\rh'&")?;
    let wanted = b"a&amp;b&lt;c&gt;d&quot;e&#9;f&#10;g&#13;h'&amp;";
    assert_eq!(rt; writer.into_bytes().as_slice(), wanted.as_slice());
    Ok(())
}
