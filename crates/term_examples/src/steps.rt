//! Terms and guards that are written as words, each behind its parts.
//!
//! Terms: one letter is a variable; `dot`; `1/0/2` the number 1 of the range from 0 to 2; `all:S` and `empty:S` of a sort;
//! any other word a constant or a block. Over parts stand `succ`, `pred`, `times:2`, `scaled:2`, `block:P` (of a
//! partition), `tuple:2`, `add:2` and `minus`.
//!
//! Guards: `yes`, `no`, `not`, `and:2`, `or:2`, `imply`, and behind two terms `=`, `<>`, `<`, `<=`, `>`, `>=`.

use colour_tables::{cut, sort, spanned};
use multiset_terms::{Guard, Order, Term};
use name_tables::{Name, read_number};
use sqlite_items::{Boxed, Items};
use std::alloc::Global;
use wide_sums::Memory;

/// The last of some values, or want of memory where there is none: no row is written so.
fn last<T: Drop>(values: &mut Vec<T>) -> Result<T, Memory> {
    match values.pop() {
        Some(value) => Ok(value),
        None => Err(Memory),
    }
}

/// A number; other words stand for 0.
fn number(word: &[u8]) -> u64 {
    match read_number(word, false) {
        Some(number) if number >= 0 => number as u64,
        _ => 0,
    }
}

/// The last values in their order, as many as a word says.
fn last_ones<T: Drop>(alloc: Global, values: &mut Vec<T>, word: &[u8]) -> Result<Items<T>, Memory> {
    let mut ones = Vec::new(alloc);
    for _at in 0..number(word) {
        ones.push(last(values)?)?;
    }
    ones.reverse();
    Ok(Items::from_vec(ones))
}

fn leaf(alloc: Global, word: &[u8]) -> Result<Term, Memory> {
    if let Some((value, span)) = spanned(word) {
        return Ok(Term::Number { value, span });
    }
    let (kind, rest) = cut(word, b':');
    match kind {
        b"dot" => Ok(Term::Dot),
        b"all" => Ok(Term::All(sort(alloc, rest)?)),
        b"empty" => Ok(Term::Empty(sort(alloc, rest)?)),
        _ => {
            let id = Name::new(alloc, word)?;
            if word.len() == 1 {
                Ok(Term::Variable(id))
            } else {
                Ok(Term::Operator(id))
            }
        }
    }
}

fn over_one(alloc: Global, word: &[u8], term: Term) -> Result<Term, Memory> {
    let child = Boxed::new(alloc, term)?;
    let (kind, rest) = cut(word, b':');
    match kind {
        b"succ" => Ok(Term::Successor(child)),
        b"pred" => Ok(Term::Predecessor(child)),
        b"times" => Ok(Term::NumberOf(number(rest), child)),
        b"scaled" => Ok(Term::Scalar(number(rest), child)),
        _ => Ok(Term::BlockOf(Name::new(alloc, rest)?, child)),
    }
}

fn difference(alloc: Global, terms: &mut Vec<Term>) -> Result<Term, Memory> {
    let part = Boxed::new(alloc, last(terms)?)?;
    Ok(Term::Subtract(Boxed::new(alloc, last(terms)?)?, part))
}

fn next(alloc: Global, terms: &mut Vec<Term>, word: &[u8]) -> Result<Term, Memory> {
    let (kind, rest) = cut(word, b':');
    match kind {
        b"tuple" => Ok(Term::Tuple(last_ones(alloc, terms, rest)?)),
        b"add" => Ok(Term::Add(last_ones(alloc, terms, rest)?)),
        b"minus" => difference(alloc, terms),
        b"succ" | b"pred" | b"times" | b"scaled" | b"block" => {
            over_one(alloc, word, last(terms)?)
        }
        _ => leaf(alloc, word),
    }
}

/// The term of some words.
pub fn term(alloc: Global, text: &[u8]) -> Result<Term, Memory> {
    let mut terms = Vec::new(alloc);
    for word in text.split(|byte| *byte == b' ') {
        let term = next(alloc, &mut terms, word)?;
        terms.push(term)?;
    }
    last(&mut terms)
}

fn order_named(word: &[u8]) -> Option<Order> {
    match word {
        b"=" => Some(Order::Equal),
        b"<>" => Some(Order::Unequal),
        b"<" => Some(Order::Less),
        b"<=" => Some(Order::LessEqual),
        b">" => Some(Order::Greater),
        b">=" => Some(Order::GreaterEqual),
        _ => None,
    }
}

fn comparison(terms: &mut Vec<Term>, order: Order) -> Result<Guard, Memory> {
    let second = last(terms)?;
    Ok(Guard::Compare(order, last(terms)?, second))
}

fn implication(alloc: Global, guards: &mut Vec<Guard>) -> Result<Guard, Memory> {
    let second = Boxed::new(alloc, last(guards)?)?;
    Ok(Guard::Imply(Boxed::new(alloc, last(guards)?)?, second))
}

/// The guard over the last ones that a word writes, `None` where the word is one of terms.
fn over_guards(
    alloc: Global,
    guards: &mut Vec<Guard>,
    word: &[u8],
) -> Result<Option<Guard>, Memory> {
    let (kind, rest) = cut(word, b':');
    match kind {
        b"yes" => Ok(Some(Guard::Constant(true))),
        b"no" => Ok(Some(Guard::Constant(false))),
        b"not" => Ok(Some(Guard::Not(Boxed::new(alloc, last(guards)?)?))),
        b"and" => Ok(Some(Guard::And(last_ones(alloc, guards, rest)?))),
        b"or" => Ok(Some(Guard::Or(last_ones(alloc, guards, rest)?))),
        b"imply" => Ok(Some(implication(alloc, guards)?)),
        _ => Ok(None),
    }
}

fn next_in_guard(
    alloc: Global,
    terms: &mut Vec<Term>,
    guards: &mut Vec<Guard>,
    word: &[u8],
) -> Result<(), Memory> {
    if let Some(order) = order_named(word) {
        guards.push(comparison(terms, order)?)?;
        return Ok(());
    }
    match over_guards(alloc, guards, word)? {
        Some(guard) => guards.push(guard)?,
        None => {
            let term = next(alloc, terms, word)?;
            terms.push(term)?;
        }
    }
    Ok(())
}

/// The guard of some words.
pub fn guard(alloc: Global, text: &[u8]) -> Result<Guard, Memory> {
    let mut terms = Vec::new(alloc);
    let mut guards = Vec::new(alloc);
    for word in text.split(|byte| *byte == b' ') {
        next_in_guard(alloc, &mut terms, &mut guards, word)?;
    }
    last(&mut guards)
}
