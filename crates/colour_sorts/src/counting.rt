ghost use Rattle.std.specs.Prelude.{◌≡◌, ℕ, ◌+◌, ◌<◌, ◌≤◌, ◌^◌, length, map};
ghost use Rattle.colour_sorts.specs.Colours.{colours, size, span_length, tuples};

use crate::domains::Domains;
use crate::sorts::Sort;
use net_model::Span;

/// How many numbers a range has.
pub(crate) fn span_length(span: &Span) -> u32
    requires some { 0 < span_length span.now }
    requires limit { span_length span.now ≤ 2 ^ 20 }
    ensures { result ≡ span_length span.now }
{
    (span.last - span.first) as u32 + 1
}

impl Domains {
    /// How many colours a sort has, from 1 to 2^20. It takes no memory.
    #[cycle(counting)]
    pub fn size(&self, sort: &Sort) -> u32
        requires some { 0 < size self.now.constants sort.now }
        requires limit { size self.now.constants sort.now ≤ 2 ^ 20 }
        ensures { result ≡ size self.now.constants sort.now }
    {
        match sort {
            Sort::Dot => 1,
            Sort::Listed(at) => self.constants.count(*at),
            Sort::Cyclic(at) => self.constants.count(*at),
            Sort::Range(span) => span_length(span),
            Sort::Product(parts) => self.tuple_count(parts.as_slice()),
        }
    }

    /// How many tuples there are of colours of these sorts.
    #[cycle(counting)]
    pub(crate) fn tuple_count(&self, parts: &[Sort]) -> u32
        requires some { 0 < length (tuples (map (colours self.now.constants) parts.now)) }
        requires limit { length (tuples (map (colours self.now.constants) parts.now)) ≤ 2 ^ 20 }
        ensures { result ≡ length (tuples (map (colours self.now.constants) parts.now)) }
    {
        let mut count = 1;
        for part in parts {
            count *= self.size(part);
        }
        count
    }
}
