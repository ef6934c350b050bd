ghost use Rattle.std.specs.Prelude.{◌≡◌, ◌+◌, ◌+ℤ◌, ◌-ℤ◌, ◌≤ℤ◌, ◌<ℤ◌, pos, ◌<◌, ◌≤◌, ◌^◌, length, map};
ghost use Rattle.colour_sorts.specs.Colours.{colours, constants_at, size, span_length, span_numbers, tuples};
ghost use Rattle.colour_sorts.specs.Places.{IsPlace};
ghost use Rattle.colour_sorts.specs.declared.sorts.Colour.TheVariants as variants;

use crate::domains::Domains;
use crate::sorts::{Colour, Sort};
use net_model::Span;

/// How many steps a number is above the first one of a range.
fn steps_between(first: i64, number: i64) -> u32
    requires order { first ≤ℤ number }
    requires limit { (number -ℤ first) <ℤ pos (2 ^ 32) }
    ensures { number ≡ first +ℤ pos result }
{
    (number - first) as u32
}

/// The place of a number in a range.
pub(crate) fn number_index(span: &Span, number: i64) -> Option<u32>
    requires { span_length span.now ≤ 2 ^ 20 }
    ensures { IsPlace (span_numbers span.now) number result }
{
    if number < span.first {
        return None;
    }
    if span.last < number {
        return None;
    }
    Some(steps_between(span.first, number))
}

/// The place of a colour among the numbers of a range.
fn range_index(span: &Span, colour: &Colour) -> Option<u32>
    requires { span_length span.now ≤ 2 ^ 20 }
    ensures { IsPlace (map variants.Number (span_numbers span.now)) colour.now result }
{
    match colour {
        Colour::Number(number) => number_index(span, *number),
        _ => None,
    }
}

impl Domains {
    /// The place of a colour among the constants that the named sort at this position declares.
    fn listed_index(&self, at: u32, colour: &Colour) -> Option<u32>
        requires { 0 < length (constants_at self.now.constants at) }
        ensures { IsPlace (map variants.Constant (constants_at self.now.constants at)) colour.now result }
    {
        match colour {
            Colour::Constant(name) => self.constants.index(at, name.bytes()),
            _ => None,
        }
    }

    /// The number of a colour of a sort: its place in the list of the sort's colours. `None` where
    /// it is no colour of the sort. It takes no memory.
    #[cycle(placing)]
    pub fn index_of(&self, sort: &Sort, colour: &Colour) -> Option<u32>
        requires some { 0 < size self.now.constants sort.now }
        requires limit { size self.now.constants sort.now ≤ 2 ^ 20 }
        ensures { IsPlace (colours self.now.constants sort.now) colour.now result }
    {
        match sort {
            Sort::Dot => match colour {
                Colour::Dot => Some(0),
                _ => None,
            },
            Sort::Listed(at) => self.listed_index(*at, colour),
            Sort::Cyclic(at) => self.listed_index(*at, colour),
            Sort::Range(span) => range_index(span, colour),
            Sort::Product(parts) => match colour {
                Colour::Tuple(components) => {
                    self.tuple_index(parts.as_slice(), components.as_slice())
                }
                _ => None,
            },
        }
    }

    /// The place of a tuple among the tuples of these sorts.
    #[cycle(placing)]
    fn tuple_index(&self, parts: &[Sort], components: &[Colour]) -> Option<u32>
        requires some { 0 < length (tuples (map (colours self.now.constants) parts.now)) }
        requires limit { length (tuples (map (colours self.now.constants) parts.now)) ≤ 2 ^ 20 }
        ensures { IsPlace (tuples (map (colours self.now.constants) parts.now)) components.now result }
    {
        if parts.len() != components.len() {
            return None;
        }
        let mut index = 0;
        for (at, part) in parts.iter().enumerate() {
            match self.index_of(part, &components[at]) {
                Some(place) => index = index * self.size(part) + place,
                None => return None,
            }
        }
        Some(index)
    }
}
