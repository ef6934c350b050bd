use crate::sorts::{NamedSort, Partition, SortTerm};
use crate::terms::{Guard, Term};

/// Holds for a type whose values can be lent to several threads and sent between them.
fn is_shared<T: Send + Sync>() {}

/// Declarations, terms and guards can be lent to jobs and given back by them: this is refused where a type can't.
pub fn written_values_are_shared() {
    is_shared::<NamedSort>();
    is_shared::<Partition>();
    is_shared::<SortTerm>();
    is_shared::<Term>();
    is_shared::<Guard>();
}
