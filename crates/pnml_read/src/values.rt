ghost use Rattle.std.specs.Prelude.{◌≡◌, IfOk, codes};
ghost use Rattle.net_elements.specs.Rules.{truth_of};
ghost use Rattle.pnml_read.specs.Nets.{is_true, signed, span_part, text_in, unsigned};

use doc_model::Attribute;
use name_tables::{Name, read_number};
use net_elements::{truth_of, value_of};
use net_model::Span;
use std::alloc::Global;
use wide_sums::Memory;

/// The value of an attribute, and no bytes where it is absent.
pub fn bytes_in<'a>(name: &[u8], attributes: &'a [Attribute]) -> &'a [u8]
    ensures { result.now ≡ text_in name.now attributes.now }
{
    value_of(name, attributes).unwrap_or(b"")
}

/// A copy of the value of an attribute.
pub fn name_in(alloc: Global, name: &[u8], attributes: &[Attribute]) -> Result<Name, Memory>
    ensures { IfOk result (λ value. value ≡ text_in name.now attributes.now) }
{
    Name::new(alloc, bytes_in(name, attributes))
}

/// The number that a text writes, with a sign if it has one, and 0 where it writes none.
pub fn signed(text: &[u8]) -> i64
    ensures { result ≡ signed text.now }
{
    read_number(text, true).unwrap_or(0)
}

/// The number that a text writes without a sign, and 0 where it writes none.
pub fn unsigned(text: &[u8]) -> u64
    ensures { result ≡ unsigned text.now }
{
    match read_number(text, false) {
        Some(number) => number.unsigned_abs(),
        None => 0,
    }
}

/// The span of a range.
pub fn span_in(attributes: &[Attribute]) -> Span
    ensures { result ≡ span_part attributes.now }
{
    Span {
        first: signed(bytes_in(b"start", attributes)),
        last: signed(bytes_in(b"end", attributes)),
    }
}

/// The truth value of a constant.
pub fn truth_in(attributes: &[Attribute]) -> bool
    ensures { result ≡ is_true (truth_of (text_in (codes "value") attributes.now)) }
{
    truth_of(bytes_in(b"value", attributes)).unwrap_or(false)
}
