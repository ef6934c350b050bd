use crate::formulas::Goal;

/// Holds for a type whose values can be lent to several threads and sent between them.
fn is_shared<T: Send + Sync>() {}

/// Goals can be lent to jobs and given back by them: this is refused where a type can't.
pub fn goals_are_shared() {
    is_shared::<Goal>();
}
