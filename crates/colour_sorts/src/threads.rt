use crate::domains::Domains;
use crate::rules::{ResolveFault, Rule, SortFault};
use crate::sorts::{Colour, Declared, Sort};

/// Stands only where jobs may be lent values of the type and give them back.
fn is_shared<T: Send + Sync>() {}

#[test]
fn jobs_share_sorts() {
    is_shared::<Domains>();
    is_shared::<Sort>();
    is_shared::<Colour>();
    is_shared::<Declared>();
    is_shared::<Rule>();
    is_shared::<SortFault>();
    is_shared::<ResolveFault>();
}
