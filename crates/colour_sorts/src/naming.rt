ghost use Rattle.std.specs.Prelude.{◌≡◌, ◌+◌, ◌+ℤ◌, pos, ◌<◌, ◌≤◌, ◌^◌, IfOk, Some, length, map, slice_get};
ghost use Rattle.colour_sorts.specs.Colours.{colours, constants_at, size, span_length, span_numbers, tuples};

use crate::domains::Domains;
use crate::sorts::{Colour, Sort};
use name_tables::Name;
use net_model::Span;
use sqlite_items::Items;
use std::alloc::Global;
use wide_sums::Memory;

/// The number at a place of a range.
fn number_at(span: Span, index: u32) -> i64
    requires { index < span_length span }
    ensures { slice_get (span_numbers span) index ≡ Some result }
{
    span.first + index as i64
}

impl Domains {
    /// The constant at a place among those that the named sort at this position declares.
    fn constant_name(&self, alloc: Global, at: u32, index: u32) -> Result<Name, Memory>
        requires { index < length (constants_at self.now.constants at) }
        ensures { IfOk result (λ name. slice_get (constants_at self.now.constants at) index ≡ Some name) }
    {
        let name = Name::new(alloc, self.constants.name(at, index))?;
        Ok(name)
    }

    /// The colour of a sort with this number, which is below the size of the sort.
    #[cycle(reading)]
    pub fn colour_at(&self, alloc: Global, sort: &Sort, index: u32) -> Result<Colour, Memory>
        requires within { index < size self.now.constants sort.now }
        requires limit { size self.now.constants sort.now ≤ 2 ^ 20 }
        ensures { IfOk result (λ colour. slice_get (colours self.now.constants sort.now) index ≡ Some colour) }
    {
        match sort {
            Sort::Dot => Ok(Colour::Dot),
            Sort::Listed(at) => match self.constant_name(alloc, *at, index) {
                Ok(name) => Ok(Colour::Constant(name)),
                Err(memory) => Err(memory),
            },
            Sort::Cyclic(at) => match self.constant_name(alloc, *at, index) {
                Ok(name) => Ok(Colour::Constant(name)),
                Err(memory) => Err(memory),
            },
            Sort::Range(span) => Ok(Colour::Number(number_at(*span, index))),
            Sort::Product(parts) => match self.tuple_at(alloc, parts.as_slice(), index) {
                Ok(components) => Ok(Colour::Tuple(components)),
                Err(memory) => Err(memory),
            },
        }
    }

    /// The tuple at a place among the tuples of these sorts.
    #[cycle(reading)]
    fn tuple_at(&self, alloc: Global, parts: &[Sort], index: u32) -> Result<Items<Colour>, Memory>
        requires within { index < length (tuples (map (colours self.now.constants) parts.now)) }
        requires limit { length (tuples (map (colours self.now.constants) parts.now)) ≤ 2 ^ 20 }
        ensures { IfOk result (λ components. slice_get (tuples (map (colours self.now.constants) parts.now)) index ≡ Some components) }
    {
        let mut components = Vec::with_capacity(alloc, parts.len())?;
        let mut rests = self.tuple_count(parts);
        let mut place = index;
        for part in parts {
            rests /= self.size(part);
            components.push(self.colour_at(alloc, part, place / rests)?)?;
            place %= rests;
        }
        Ok(Items::from_vec(components))
    }
}
