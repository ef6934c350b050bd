ghost use Rattle.std.specs.Prelude.{◌≡◌, MatchOption, None, Some, find};
ghost use Rattle.pnml_read.specs.Parts.{named_element};

use doc_model::Element;
use net_elements::{Role, word_of};

/// The first child that has the name of a role.
pub fn named(role: Role, children: &[Element]) -> Option<&Element>
    ensures { MatchOption result (named_element role children.now ≡ None) (λ element. named_element role children.now ≡ Some element.now) }
{
    let word = word_of(role);
    for element in children {
        if element.name.bytes() == word {
            return Some(element);
        }
    }
    None
}
