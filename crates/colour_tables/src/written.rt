//! Sorts and partitions that are written as text.
//!
//! A sort is `dot`, a range as `1/4`, `listed` or `cyclic` with constants, `product` with ids of named sorts, or the id
//! of a named sort. Declarations stand between `;`: a named sort is `ID:SORT`, a partition `ID:SORT|BLOCK|BLOCK`. A
//! block is its id and its members: constants, and numbers as `3/1/4`, with the range that they are meant to be of.

use colour_sorts::{Block, Member, NamedSort, Partition, Rule, SortTerm, Span};
use name_tables::{Name, read_number};
use sqlite_items::Items;
use std::alloc::Global;
use wide_sums::Memory;

/// What stands before the first byte of this value, and what stands behind it.
pub fn cut(text: &[u8], value: u8) -> (&[u8], &[u8]) {
    match text.iter().position(|byte| *byte == value) {
        Some(at) => (&text[..at], &text[at + 1..]),
        None => (text, &[]),
    }
}

/// The range from the first to the second number.
pub fn span(text: &[u8]) -> Option<Span> {
    let (first, last) = cut(text, b'/');
    Some(Span {
        first: read_number(first, true)?,
        last: read_number(last, true)?,
    })
}

/// A number, and the range that it is meant to be of.
pub fn spanned(text: &[u8]) -> Option<(i64, Span)> {
    let (value, range) = cut(text, b'/');
    Some((read_number(value, true)?, span(range)?))
}

/// The word by which rows name a rule.
pub fn word_for(rule: Rule) -> &'static [u8] {
    rule.word()
}

fn names(alloc: Global, text: &[u8]) -> Result<Items<Name>, Memory> {
    let mut names = Vec::new(alloc);
    for word in text.split(|byte| *byte == b' ') {
        if !word.is_empty() {
            names.push(Name::new(alloc, word)?)?;
        }
    }
    Ok(Items::from_vec(names))
}

fn product(alloc: Global, ids: &[Name]) -> Result<SortTerm, Memory> {
    let mut parts = Vec::new(alloc);
    for id in ids {
        parts.push(SortTerm::Named(id.copy(alloc)?))?;
    }
    Ok(SortTerm::Product(Items::from_vec(parts)))
}

/// The written sort.
pub fn sort(alloc: Global, text: &[u8]) -> Result<SortTerm, Memory> {
    if let Some(span) = span(text) {
        return Ok(SortTerm::Range(span));
    }
    let (word, ids) = cut(text, b' ');
    match word {
        b"dot" => Ok(SortTerm::Dot),
        b"listed" => Ok(SortTerm::Listed(names(alloc, ids)?)),
        b"cyclic" => Ok(SortTerm::Cyclic(names(alloc, ids)?)),
        b"product" => product(alloc, names(alloc, ids)?.as_slice()),
        _ => Ok(SortTerm::Named(Name::new(alloc, word)?)),
    }
}

fn named_sort(alloc: Global, text: &[u8]) -> Result<NamedSort, Memory> {
    let (id, stands_for) = cut(text, b':');
    let sort = sort(alloc, stands_for)?;
    Ok(NamedSort {
        id: Name::new(alloc, id)?,
        sort,
    })
}

/// The named sorts among the written declarations.
pub fn sorts(alloc: Global, text: &[u8]) -> Result<Vec<NamedSort>, Memory> {
    let mut sorts = Vec::new(alloc);
    for declared in text.split(|byte| *byte == b';') {
        if !declared.is_empty() && !declared.contains(&b'|') {
            sorts.push(named_sort(alloc, declared)?)?;
        }
    }
    Ok(sorts)
}

fn member(alloc: Global, word: &[u8]) -> Result<Member, Memory> {
    match spanned(word) {
        Some((value, span)) => Ok(Member::Number { value, span }),
        None => Ok(Member::Constant(Name::new(alloc, word)?)),
    }
}

fn members(alloc: Global, text: &[u8]) -> Result<Items<Member>, Memory> {
    let mut members = Vec::new(alloc);
    for word in text.split(|byte| *byte == b' ') {
        if !word.is_empty() {
            members.push(member(alloc, word)?)?;
        }
    }
    Ok(Items::from_vec(members))
}

fn block(alloc: Global, text: &[u8]) -> Result<Block, Memory> {
    let (id, listed) = cut(text, b' ');
    let members = members(alloc, listed)?;
    Ok(Block {
        id: Name::new(alloc, id)?,
        members,
    })
}

fn blocks(alloc: Global, text: &[u8]) -> Result<Items<Block>, Memory> {
    let mut blocks = Vec::new(alloc);
    for listed in text.split(|byte| *byte == b'|') {
        if !listed.is_empty() {
            blocks.push(block(alloc, listed)?)?;
        }
    }
    Ok(Items::from_vec(blocks))
}

fn partition(alloc: Global, text: &[u8]) -> Result<Partition, Memory> {
    let (head, listed) = cut(text, b'|');
    let NamedSort { id, sort } = named_sort(alloc, head)?;
    let elements = blocks(alloc, listed)?;
    Ok(Partition { id, sort, elements })
}

/// The partitions among the written declarations.
pub fn partitions(alloc: Global, text: &[u8]) -> Result<Vec<Partition>, Memory> {
    let mut partitions = Vec::new(alloc);
    for declared in text.split(|byte| *byte == b';') {
        if declared.contains(&b'|') {
            partitions.push(partition(alloc, declared)?)?;
        }
    }
    Ok(partitions)
}
