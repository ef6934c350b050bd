use crate::certificates::{Cert, Fact, Node, Section};
use crate::statements::Statement;
use line_words::Line;

/// Holds for a type whose values can be lent to several threads and sent between them.
fn is_shared<T: Send + Sync>() {}

/// Certificates and all that they hold can be lent to jobs and given back by them: this is refused where a type can't.
pub fn certificates_are_shared() {
    is_shared::<Cert>();
    is_shared::<Section>();
    is_shared::<Fact>();
    is_shared::<Node>();
    is_shared::<Line<Statement>>();
    is_shared::<Statement>();
}
