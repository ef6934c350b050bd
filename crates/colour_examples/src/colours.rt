use crate::limits::{is_past, size_in};
use colour_sorts::{Colour, Declared, ResolveFault, Sort, SortTerm, Span};
use colour_tables::{Built, cut, sort, word_for};
use name_tables::{Name, read_number};
use sqlite_items::Items;
use std::alloc::Global;
use wide_sums::Memory;

/// Declarations, and rows of what they stand for, one on a line. After the first word of a row, which says what is told,
/// the words are those that the function for it reads.
struct Rows {
    declared: &'static [u8],
    lines: &'static [u8],
}

/// A place or a size; a word that is no number stands for one that no list here reaches.
fn place(word: &[u8]) -> u32 {
    match read_number(word, false) {
        Some(number) if number >= 0 && number < 4_294_967_295 => number as u32,
        _ => 4_294_967_295,
    }
}

/// Whether a place is this number, or there is none and the word is `none`.
fn is_place(found: Option<u32>, word: &[u8]) -> bool {
    match found {
        Some(at) => read_number(word, false) == Some(at as i64),
        None => word == b"none".as_slice(),
    }
}

fn single(alloc: Global, word: &[u8]) -> Result<Colour, Memory> {
    if word == b"dot".as_slice() {
        return Ok(Colour::Dot);
    }
    match read_number(word, true) {
        Some(number) => Ok(Colour::Number(number)),
        None => Ok(Colour::Constant(Name::new(alloc, word)?)),
    }
}

fn tuple(alloc: Global, text: &[u8]) -> Result<Colour, Memory> {
    let mut components = Vec::new(alloc);
    for word in text.split(|byte| *byte == b',') {
        components.push(single(alloc, word)?)?;
    }
    Ok(Colour::Tuple(Items::from_vec(components)))
}

/// A colour: `dot`, a number, a constant, or several of these between `,` as a tuple.
fn colour(alloc: Global, text: &[u8]) -> Result<Colour, Memory> {
    if text.contains(&b',') {
        tuple(alloc, text)
    } else {
        single(alloc, text)
    }
}

/// The number of a colour in a sort.
fn number_of(
    alloc: Global,
    built: &Built,
    sort: &SortTerm,
    text: &[u8],
) -> Result<Option<u32>, ResolveFault> {
    match colour(alloc, text) {
        Ok(colour) => built.index_of(alloc, sort, &colour),
        Err(_) => Err(ResolveFault::Memory),
    }
}

/// The number of the colour that has this number.
fn given_back(
    alloc: Global,
    built: &Built,
    sort: &SortTerm,
    index: u32,
) -> Result<Option<u32>, ResolveFault> {
    match built.colour_at(alloc, sort, index)? {
        Some(colour) => built.index_of(alloc, sort, &colour),
        None => Ok(None),
    }
}

/// Whether a colour has a number, and the colour of that number is it.
fn is_numbered(
    alloc: Global,
    built: &Built,
    sort: &SortTerm,
    text: &[u8],
    number: &[u8],
) -> Result<bool, ResolveFault> {
    let found = number_of(alloc, built, sort, text)?;
    match found {
        Some(index) if given_back(alloc, built, sort, index)? != found => Ok(false),
        _ => Ok(is_place(found, number)),
    }
}

/// `COLOUR NUMBER SORT`.
fn is_right_number(alloc: Global, built: &Built, row: &[u8]) -> bool {
    let (text, rest) = cut(row, b' ');
    let (number, given) = cut(rest, b' ');
    match sort(alloc, given) {
        Ok(sort) => match is_numbered(alloc, built, &sort, text, number) {
            Ok(right) => right,
            Err(_) => false,
        },
        Err(_) => false,
    }
}

fn around(
    alloc: Global,
    built: &Built,
    text: &[u8],
    index: u32,
) -> Result<Option<(u32, u32)>, ResolveFault> {
    match sort(alloc, text) {
        Ok(sort) => built.around(alloc, &sort, index),
        Err(_) => Err(ResolveFault::Memory),
    }
}

/// `SORT NUMBER BEFORE AFTER`, and `none` for both where the sort goes round in no cycle or has no such colour.
fn is_right_around(alloc: Global, built: &Built, row: &[u8]) -> bool {
    let (text, rest) = cut(row, b' ');
    let (index, rest) = cut(rest, b' ');
    let (before, after) = cut(rest, b' ');
    match around(alloc, built, text, place(index)) {
        Ok(Some((first, second))) => is_place(Some(first), before) && is_place(Some(second), after),
        Ok(None) => is_place(None, before) && is_place(None, after),
        Err(_) => false,
    }
}

/// `PARTITION NUMBER BLOCK`.
fn is_right_block(built: &Built, row: &[u8]) -> bool {
    let (id, rest) = cut(row, b' ');
    let (index, block) = cut(rest, b' ');
    is_place(built.block_of(id, place(index)), block)
}

/// Whether the words are a kind and two places.
fn are_places(row: &[u8], kind: &[u8], first: u32, second: u32) -> bool {
    let (word, rest) = cut(row, b' ');
    let (before, behind) = cut(rest, b' ');
    word == kind && is_place(Some(first), before) && is_place(Some(second), behind)
}

/// What an id declares: a kind, the place of the enumeration or partition, and that of the constant or block in it.
fn what(built: &Built, id: &[u8]) -> Option<(&'static [u8], u32, u32)> {
    match built.operator(id)? {
        Declared::Constant {
            sort: Sort::Cyclic(at),
            index,
        } => Some((b"cyclic", at, index)),
        Declared::Constant {
            sort: Sort::Listed(at),
            index,
        } => Some((b"listed", at, index)),
        Declared::Constant { .. } => None,
        Declared::Block { partition, block } => Some((b"block", partition, block)),
    }
}

/// `ID KIND PLACE PLACE`, or `ID none`.
fn is_right_operator(built: &Built, row: &[u8]) -> bool {
    let (id, rest) = cut(row, b' ');
    match what(built, id) {
        Some((kind, at, index)) => are_places(rest, kind, at, index),
        None => is_place(None, rest),
    }
}

fn size(alloc: Global, built: &Built, text: &[u8]) -> Result<u32, ResolveFault> {
    match sort(alloc, text) {
        Ok(sort) => built.size(alloc, &sort),
        Err(_) => Err(ResolveFault::Memory),
    }
}

fn is_fault(fault: ResolveFault, word: &[u8]) -> bool {
    match fault {
        ResolveFault::Bad { rule } => word_for(rule) == word,
        ResolveFault::Memory => false,
    }
}

/// `SIZE SORT`, where in place of the size a rule may stand that the sort breaks.
fn is_right_size(alloc: Global, built: &Built, row: &[u8]) -> bool {
    let (answer, text) = cut(row, b' ');
    match size(alloc, built, text) {
        Ok(size) => is_place(Some(size), answer),
        Err(fault) => is_fault(fault, answer),
    }
}

fn is_right(alloc: Global, built: &Built, line: &[u8]) -> bool {
    let (word, row) = cut(line, b' ');
    match word {
        b"number" => is_right_number(alloc, built, row),
        b"around" => is_right_around(alloc, built, row),
        b"block" => is_right_block(built, row),
        b"operator" => is_right_operator(built, row),
        b"size" => is_right_size(alloc, built, row),
        _ => false,
    }
}

fn wrong_line(alloc: Global, built: &Built, lines: &[u8]) -> Option<usize> {
    for (number, line) in lines.split(|byte| *byte == b'\n').enumerate() {
        if !line.is_empty() && !is_right(alloc, built, line) {
            return Some(number);
        }
    }
    None
}

/// The number of the first line that isn't right.
fn first_wrong(alloc: Global, rows: &Rows) -> Option<usize> {
    match Built::written(alloc, rows.declared) {
        Ok(built) => wrong_line(alloc, &built, rows.lines),
        Err(_) => Some(0),
    }
}

static COLOURS: Rows = Rows {
    declared: b"A:listed a1 a2;B:listed b1 b2 b3;D:-1/1;P:product A D",
    lines: b"
size 2 A
number a1 0 A
number a2 1 A
number b1 none A
number 0 none A
number dot none A
size 6 P
number a1,-1 0 P
number a1,0 1 P
number a1,1 2 P
number a2,-1 3 P
number a2,0 4 P
number a2,1 5 P
number a2,2 none P
number b1,0 none P
number a1 none P
size 6 product A B
number a1,b1 0 product A B
number a1,b3 2 product A B
number a2,b1 3 product A B
number a2,b3 5 product A B
number b3,a2 none product A B
size 1 dot
number dot 0 dot
number 0 none dot
",
};

#[test]
fn colours_and_their_numbers(rt: HostRuntime) {
    assert!(rt; first_wrong(rt.alloc(), &COLOURS).is_none());
}

static CYCLES: Rows = Rows {
    declared: b"C:cyclic c1 c2 c3;A:listed a1;D:cyclic d1;P:C|odd c1 c3|even c2;R:1/4|high 4/1/4 3/1/4|low 1/1/4 2/1/4",
    lines: b"
around C 0 2 1
around C 1 0 2
around C 2 1 0
around C 3 none none
around D 0 0 0
around A 0 none none
block P 0 0
block P 1 1
block P 2 0
block P 3 none
block R 0 1
block R 1 1
block R 2 0
block R 3 0
block R 4 none
block Q 0 none
operator c3 cyclic 0 2
operator a1 listed 1 0
operator d1 cyclic 2 0
operator odd block 0 0
operator low block 1 1
operator C none
operator P none
operator c4 none
operator  none
",
};

#[test]
fn cycles_blocks_and_what_ids_declare(rt: HostRuntime) {
    assert!(rt; first_wrong(rt.alloc(), &CYCLES).is_none());
}

static SIZES: Rows = Rows {
    declared: b"A:1/1024;B:product A A;C:1/1025;D:dot",
    lines: b"
size 1048576 B
size domain-limit product A C
size 1 product D D
size 8 -3/4
size 1 9223372036854775807/9223372036854775807
size 1048576 1/1048576
size domain-limit 0/1048576
size domain-limit -9223372036854775807/9223372036854775807
size unknown-sort Q
size unknown-sort product A Q
",
};

#[test]
fn sizes_of_sorts(rt: HostRuntime) {
    assert!(rt; first_wrong(rt.alloc(), &SIZES).is_none());
}

/// The size of the range from the least number to this one.
fn range_size(alloc: Global, last: i64) -> Result<u32, ResolveFault> {
    let first = i64::MIN;
    size_in(alloc, &[], &SortTerm::Range(Span { first, last }))
}

#[test]
fn ranges_from_the_least_number(rt: HostRuntime) {
    assert!(rt; matches!(range_size(rt.alloc(), i64::MIN), Ok(1)));
    assert!(rt; is_past(range_size(rt.alloc(), i64::MAX)));
}
