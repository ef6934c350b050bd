use multiset_terms::{Guard, Order, Term};
use name_tables::Name;
use sqlite_items::{Boxed, Items};
use std::alloc::Global;
use wide_sums::Memory;

fn variable(alloc: Global, id: &[u8]) -> Result<Term, Memory> {
    Ok(Term::Variable(Name::new(alloc, id)?))
}

/// A comparison of two variables.
fn compared(alloc: Global, order: Order, first: &[u8], second: &[u8]) -> Result<Guard, Memory> {
    let first = variable(alloc, first)?;
    let second = variable(alloc, second)?;
    Ok(Guard::Compare(order, first, second))
}

/// A guard by its number: none at all; x = y and y = z and z = w; z = w and x = y, the last part first; never; not x = y.
pub fn guard(alloc: Global, number: u32) -> Result<Guard, Memory> {
    let mut parts = Vec::new(alloc);
    match number {
        0 => return Ok(Guard::Constant(true)),
        1 => {
            parts.push(compared(alloc, Order::Equal, b"x", b"y")?)?;
            parts.push(compared(alloc, Order::Equal, b"y", b"z")?)?;
            parts.push(compared(alloc, Order::Equal, b"z", b"w")?)?;
        }
        2 => {
            parts.push(compared(alloc, Order::Equal, b"z", b"w")?)?;
            parts.push(compared(alloc, Order::Equal, b"x", b"y")?)?;
        }
        3 => parts.push(Guard::Constant(false))?,
        _ => {
            let part = compared(alloc, Order::Equal, b"x", b"y")?;
            return Ok(Guard::Not(Boxed::new(alloc, part)?));
        }
    }
    Ok(Guard::And(Items::from_vec(parts)))
}
