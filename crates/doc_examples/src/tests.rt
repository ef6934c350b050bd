ghost use Rattle.std.specs.Prelude.{◌≤◌};

use doc_tree::{DocFault, Element, Reader, read_pieces, write};
use std::alloc::Global;
use std::test::Fail;

/// A text, and the offset at which it is malformed, if it is no document.
type Row = (&'static [u8], Option<u64>);

/// What a reader answers to the bytes in pieces of a size, one or more.
fn read_in(alloc: Global, text: &[u8], size: usize) -> Result<Element, DocFault> {
    let mut reader = match Reader::new(alloc) {
        Ok(reader) => reader,
        Err(_) => return Err(DocFault::Memory),
    };
    for piece in text.chunks(size.max(1)) {
        if reader.count() > 1_000_000_000 || piece.len() > 1_000_000_000 {
            return Err(DocFault::Memory);
        }
        match reader.feed(piece) {
            Ok(()) => {}
            Err(fault) => return Err(fault),
        }
    }
    reader.finish()
}

fn fault_in(alloc: Global, text: &[u8], size: usize) -> Option<DocFault> {
    match read_in(alloc, text, size) {
        Ok(_) => None,
        Err(fault) => Some(fault),
    }
}

const TAGS_AND_ENDS: &[Row] = &[
    (b"<a/>", None),
    (b"<a></a>", None),
    (b" \t\r\n<a \n></a\t> \n", None),
    (b"<a><b></a>", Some(8)),
    (b"<a><b/></a", Some(10)),
    (b"<a/>x", Some(4)),
    (b"<a><b></a>", Some(8)),
    (b"", Some(0)),
    (b"<a", Some(2)),
    (b"<a/><b/>", Some(5)),
    (b"</a>", Some(1)),
    (b"<a></ab>", Some(6)),
    (b"<ab></a>", Some(7)),
    (b"<a / >", Some(4)),
    (b"x<a/>", Some(0)),
    (b"< a/>", Some(1)),
    (b"<1a/>", Some(1)),
    (b"<a></ a>", Some(5)),
    (b"<a><b/><c></c></a>", None),
    (b"<:a-b.1_/>", None),
    (b"<a>></a>", None),
    (b"<", Some(1)),
    (b"<a></", Some(5)),
    (b"<a></a", Some(6)),
    (b"<a></a ", Some(7)),
    (b"<a></a x>", Some(7)),
    (b"<a></a/>", Some(6)),
    (b"<a/ >", Some(3)),
    (b"<a//>", Some(3)),
    (b"<-a/>", Some(1)),
    (b"<a><></a>", Some(4)),
    (b"<a\x0C/>", Some(2)),
    (b"\x00<a/>", Some(0)),
    (b"<a/>\x00", Some(4)),
    (b"<ab><a></ab>", Some(10)),
];

const ATTRIBUTES: &[Row] = &[
    (b"<a b='1&#x41;'> x <!-- c -->y</a>", None),
    (b"<a b=\"1\" B=\"2\"/>", None),
    (b"<a b\n=\n'\"'\tb1='>'/>", None),
    (b"<a b=\"1\" b=\"2\"/>", Some(10)),
    (b"<a b='1' b ='2'/>", Some(10)),
    (b"<a b=\"1\"c=\"2\"/>", Some(8)),
    (b"<a b=\"<\"/>", Some(6)),
    (b"<a b=1/>", Some(5)),
    (b"<a b/>", Some(4)),
    (b"<a 'b'/>", Some(3)),
    (b"<a></a b='1'>", Some(7)),
    (b"<a b=''/>", None),
    (b"<a b='&lt;&#60;'/>", None),
    (b"<a b='1' bb='2' B='3'/>", None),
    (b"<a b='\n\t'/>", None),
    (
        b"<a a='' b='' c='' d='' e='' f='' g='' h='' i='' j='' k='' l=''/>",
        None,
    ),
    (
        b"<a a='' b='' c='' d='' e='' f='' g='' h='' i='' j='' k='' b=''/>",
        Some(59),
    ),
    (
        b"<a a='' b='' c='' d='' e='' f='' g='' h='' i='' j='' k='' k=''/>",
        Some(59),
    ),
    (b"<a b='1' c='2' b='3'/>", Some(16)),
    (b"<a b='1'c='2'/>", Some(8)),
    (b"<a b='\x01'/>", Some(6)),
    (b"<a b= c='1'/>", Some(6)),
    (b"<a ='1'/>", Some(3)),
    (b"<a b='1", Some(7)),
    (b"<a b='&", Some(7)),
    (b"<a b='1'", Some(8)),
    (b"<a b='1'>", Some(9)),
    (b"<a 1b='2'/>", Some(3)),
];

const REFERENCES: &[Row] = &[
    (
        b"<a>&lt;&gt;&amp;&apos;&quot;&#9;&#0065;&#x1F600;&#xfffe;</a>",
        None,
    ),
    (b"<a>&amq;</a>", Some(6)),
    (b"<a>&#0;</a>", Some(6)),
    (b"<a>&#xD800;</a>", Some(10)),
    (b"<a>&#xDFFF;</a>", Some(10)),
    (b"<a>&#x110000;</a>", Some(11)),
    (b"<a>&#1114112;</a>", Some(11)),
    (b"<a>&;</a>", Some(4)),
    (b"<a>&#;</a>", Some(5)),
    (b"<a>&#x;</a>", Some(6)),
    (b"<a>&#X41;</a>", Some(5)),
    (b"<a>&nbsp;</a>", Some(4)),
    (b"<a>&lt</a>", Some(6)),
    (b"&lt;<a/>", Some(0)),
    (b"<a>&#x10FFFF;</a>", None),
    (b"<a>&#xD7FF;&#xE000;</a>", None),
    (b"<a>&#xA;&#xD;&#x20;</a>", None),
    (b"<a>&gt;&#62;</a>", None),
    (b"<a>&#1;</a>", Some(6)),
    (b"<a>&#55296;</a>", Some(10)),
    (b"<a>&lt;", Some(7)),
    (b"<a>&AMP;</a>", Some(4)),
    (b"<a>&apo;</a>", Some(7)),
    (b"<a>&quott;</a>", Some(8)),
    (b"<a>&#9</a>", Some(6)),
    (b"<a>&#xG;</a>", Some(6)),
    (b"<a>& </a>", Some(4)),
];

const ASIDES: &[Row] = &[
    (b"<?xml version=\"1.0\" encoding=\"UTF-8\"?>\n<a/>", None),
    (b"<!----><a><!-- -- > --->]]></a><?b?><?c d?e??>", None),
    (b"<!DOCTYPE a>", Some(2)),
    (b"<a><![CDATA[x]]></a>", Some(5)),
    (b"<!--><a/>", Some(9)),
    (b"<!---><a/>", Some(10)),
    (b"<?>", Some(2)),
    (b"<?a?b?>", Some(4)),
    (b"<a><!-- ", Some(8)),
    (b"<a/><!-- \x01 -->", Some(9)),
    (b"<!--a--><a/><!--b-->", None),
    (b"<!--a->--><a/>", None),
    (b"<?a?><a/>", None),
    (b"<?a ?><a/>", None),
    (b"<?a ??><a/>", None),
    (b"<a>]]></a>", None),
    (b"<a>--></a>", None),
    (b"<!-a--><a/>", Some(3)),
    (b"<!--a--", Some(7)),
    (b"<a><!--</a>", Some(11)),
    (b"<? a?>", Some(2)),
    (b"<?1?>", Some(2)),
    (b"<?a", Some(3)),
    (b"<?a b", Some(5)),
    (b"<?a b?", Some(6)),
    (b"<a b='<?c?>'/>", Some(6)),
    (b"<?a \x02?><a/>", Some(4)),
    (b"<a <!---->/>", Some(3)),
    (b"<!ELEMENT>", Some(2)),
];

const BYTES_PAST_ASCII: &[Row] = &[
    (b"\xEF\xBB\xBF<a/>", None),
    (
        b"<\xC3\xA4 \xE2\x82\xAC='\xF0\x9F\x98\x80'>\xEF\xBB\xBF\xEF\xBF\xBE\x7F</\xC3\xA4>",
        None,
    ),
    (b"<a>\xFF</a>", Some(3)),
    (b"<a>\xC3", Some(4)),
    (b"\xEF\xBB\xBF\xEF\xBB\xBF<a/>", Some(3)),
    (b"<a>\xC0\x80</a>", Some(3)),
    (b"<a>\xE0\x9F\xBF</a>", Some(4)),
    (b"<a>\xED\xA0\x80</a>", Some(4)),
    (b"<a>\xF0\x8F\xBF\xBF</a>", Some(4)),
    (b"<a>\xF4\x90\x80\x80</a>", Some(4)),
    (b"<a>\xF5\x80\x80\x80</a>", Some(3)),
    (b"<a>\x80</a>", Some(3)),
    (b"<a>\xE2\x82</a>", Some(5)),
    (b"<a>\x00</a>", Some(3)),
    (b"<\xC3\xA4></\xC3\xA5>", Some(7)),
    (b"\xC3\xA4<a/>", Some(0)),
    (b"\xEF<a/>", Some(1)),
    (b"<a>\xC2\x80\xEF\xBF\xBF</a>", None),
    (b"<a>\xED\x9F\xBF\xEE\x80\x80</a>", None),
    (b"<a>\xF4\x8F\xBF\xBF</a>", None),
    (b"<\xEF\xBB\xBFa/>", None),
    (b"<!--\xC3\xA4--><?\xC3\xA4 \xC3\xA4?><a/>", None),
    (b"<a>\xC1\xBF</a>", Some(3)),
    (b"<a b='\xE2\x82'/>", Some(8)),
    (b"<a>\xF0\x9F\x98</a>", Some(6)),
    (b"<a/>\xEF\xBB\xBF", Some(4)),
    (b" \xEF\xBB\xBF<a/>", Some(1)),
    (b"\xEF\xBBx<a/>", Some(2)),
    (b"<a></a\xC3\xA4>", Some(6)),
    (b"<!--\xFF--><a/>", Some(4)),
];

/// The place of the first row that isn't answered so, in pieces of some size.
fn wrong_row(alloc: Global, rows: &[Row]) -> Option<usize> {
    for (place, (text, offset)) in rows.iter().enumerate() {
        let fault = match offset {
            None => None,
            Some(offset) => Some(DocFault::Malformed { offset: *offset }),
        };
        for size in [1, 2, 1_000_000] {
            if fault_in(alloc, text, size) != fault {
                return Some(place);
            }
        }
    }
    None
}

#[test]
fn each_row_is_answered_in_any_pieces(rt: HostRuntime) -> Result<(), Fail> {
    assert_eq!(rt; wrong_row(rt.alloc(), TAGS_AND_ENDS), None);
    assert_eq!(rt; wrong_row(rt.alloc(), ATTRIBUTES), None);
    assert_eq!(rt; wrong_row(rt.alloc(), REFERENCES), None);
    assert_eq!(rt; wrong_row(rt.alloc(), ASIDES), None);
    assert_eq!(rt; wrong_row(rt.alloc(), BYTES_PAST_ASCII), None);
    Ok(())
}

/// A document that ends with its root, with each construct.
const WHOLE: &[u8] =
    b"\xEF\xBB\xBF<?xml version='1.0'?>\n<!--a-b--><?c?><a b='1&#x41;&lt;\xC3\xA4' c = \"2\" >x&amp;&gt;&quot;&apos;&#9;]]><!----><?d e?><f/><g\t>\xF0\x9F\x98\x80</g\n></a>";

#[test]
fn each_front_of_a_document_is_malformed_at_its_end(rt: HostRuntime) -> Result<(), Fail> {
    for length in 0..WHOLE.len() {
        for size in [1, 2, 1_000_000] {
            assert_eq!(rt;
                fault_in(rt.alloc(), &WHOLE[..length], size),
                Some(DocFault::Malformed {
                    offset: length as u64
                })
            );
        }
    }
    assert_eq!(rt; fault_in(rt.alloc(), WHOLE, 2), None);
    Ok(())
}

fn nested(alloc: Global, count: usize) -> Result<Vec<u8>, Fail> {
    let mut text = Vec::new(alloc);
    for _ in 0..count {
        text.extend_from_slice(b"<a>")?;
    }
    Ok(text)
}

#[test]
fn elements_are_at_most_256_deep(rt: HostRuntime) -> Result<(), Fail> {
    let mut text = nested(rt.alloc(), 257)?;
    assert_eq!(rt;
        fault_in(rt.alloc(), text.as_slice(), 1),
        Some(DocFault::Deep { offset: 768 })
    );
    assert_eq!(rt;
        fault_in(rt.alloc(), text.as_slice(), 2),
        Some(DocFault::Deep { offset: 768 })
    );
    assert_eq!(rt;
        fault_in(rt.alloc(), text.as_slice(), 1_000_000),
        Some(DocFault::Deep { offset: 768 })
    );
    text.truncate(769);
    assert_eq!(rt;
        fault_in(rt.alloc(), text.as_slice(), 1),
        Some(DocFault::Malformed { offset: 769 })
    );
    text.extend_from_slice(b"\xC3")?;
    assert_eq!(rt;
        fault_in(rt.alloc(), text.as_slice(), 1),
        Some(DocFault::Malformed { offset: 770 })
    );
    Ok(())
}

fn is_worked_row(element: &Element) -> bool {
    if element.at != 0 || element.name.bytes() != b"a".as_slice() {
        return false;
    }
    if !element.children.is_empty() || element.text.bytes() != b" x y".as_slice() {
        return false;
    }
    match element.attributes.as_slice() {
        [one] => one.name.bytes() == b"b".as_slice() && one.value.bytes() == b"1A".as_slice(),
        _ => false,
    }
}

#[test]
fn a_document_is_its_tree(rt: HostRuntime) -> Result<(), Fail> {
    let text = b"<a b='1&#x41;'> x <!-- c -->y</a>";
    for size in [1, 2, 33] {
        let right = match read_in(rt.alloc(), text, size) {
            Ok(element) => is_worked_row(&element),
            Err(_) => false,
        };
        assert_eq!(rt; right, true);
    }
    Ok(())
}

#[test]
fn a_tree_is_read_from_pieces_and_written(rt: HostRuntime) -> Result<(), Fail> {
    let pieces: [&[u8]; 2] = [b"<a b='1&#x4", b"1;'> x <!-- c -->y</a>"];
    let written = match read_pieces(rt.alloc(), &pieces) {
        Ok(element) => write(rt.alloc(), &element).ok(),
        Err(_) => None,
    };
    let right = match written {
        Some(text) => {
            text.as_slice()
                == b"<?xml version=\"1.0\" encoding=\"UTF-8\"?>\n<a b=\"1A\"> x y</a>\n".as_slice()
        }
        None => false,
    };
    assert_eq!(rt; right, true);
    Ok(())
}

/// A text, so many times.
fn put_times(text: &mut Vec<u8>, part: &[u8], count: usize) -> Result<(), Fail> {
    for _ in 0..count {
        text.extend_from_slice(part)?;
    }
    Ok(())
}

/// Six digits of a number, the last one first.
fn put_digits(text: &mut Vec<u8>, number: u32) -> Result<(), Fail> {
    let mut rest = number;
    for _ in 0..6 {
        text.push(b'0' + (rest % 10) as u8)?;
        rest /= 10;
    }
    Ok(())
}

/// A root between so much white.
fn within_white(alloc: Global, count: usize) -> Result<Vec<u8>, Fail> {
    let mut text = Vec::new(alloc);
    put_times(&mut text, b" ", count)?;
    text.extend_from_slice(b"<a/>")?;
    put_times(&mut text, b"\n", count)?;
    Ok(text)
}

#[test]
fn much_white_is_read_outside_the_root(rt: HostRuntime) -> Result<(), Fail> {
    let text = within_white(rt.alloc(), 1_048_576)?;
    assert_eq!(rt; fault_in(rt.alloc(), &text, 65_536), None);
    assert_eq!(rt; fault_in(rt.alloc(), &text, 1_000_000_000), None);
    Ok(())
}

/// An element with attributes of so many names.
fn with_attributes(alloc: Global, count: u32) -> Result<Vec<u8>, Fail> {
    let mut text = Vec::from_slice(alloc, b"<a")?;
    for number in 0..count {
        text.extend_from_slice(b" b")?;
        put_digits(&mut text, number)?;
        text.extend_from_slice(b"=''")?;
    }
    text.extend_from_slice(b"/>")?;
    Ok(text)
}

#[test]
fn an_element_has_many_attributes(rt: HostRuntime) -> Result<(), Fail> {
    let text = with_attributes(rt.alloc(), 200_000)?;
    let count = match read_in(rt.alloc(), &text, 65_536) {
        Ok(element) => element.attributes.len(),
        Err(_) => 0,
    };
    assert_eq!(rt; count, 200_000);
    Ok(())
}

/// An element with so many children, which have an attribute and a text.
fn with_children(alloc: Global, count: usize) -> Result<Vec<u8>, Fail> {
    let mut text = Vec::from_slice(alloc, b"<a>")?;
    put_times(&mut text, b"<b c='1'>x</b>", count)?;
    text.extend_from_slice(b"</a>")?;
    Ok(text)
}

#[test]
fn an_element_has_many_children(rt: HostRuntime) -> Result<(), Fail> {
    let text = with_children(rt.alloc(), 70_000)?;
    let count = match read_in(rt.alloc(), &text, 1_000_000_000) {
        Ok(element) => element.children.len(),
        Err(_) => 0,
    };
    assert_eq!(rt; count, 70_000);
    Ok(())
}
