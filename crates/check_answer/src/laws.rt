//! Laws over the definitions: each is the contract of a function that does nothing.
ghost use Rattle.check_answer.specs.Headline.{HoldsIsInvariant};

use plain_model::shown_is_invariant;

/// Where `check` says [`Verdict::Holds`](answers::Verdict::Holds) of the bytes of three files, these
/// are the canonical texts of a net, a property and a certificate, and the property's invariant is
/// true in every marking that firing reaches from the net's initial marking.
pub fn holds_is_invariant()
    ensures { HoldsIsInvariant }
{
    shown_is_invariant();
}
