use crate::modes::{TypedArc, TypedPlace, TypedTransition};
use guard_walks::{GuardWalk, Signature};

/// Holds for a type whose values can be lent to several threads and sent between them.
fn is_shared<T: Send + Sync>() {}

/// Declarations, and the places and transitions of the modes of a net, can be lent to jobs: this is refused where one can't.
pub fn modes_are_shared() {
    is_shared::<Signature>();
    is_shared::<GuardWalk>();
    is_shared::<TypedPlace>();
    is_shared::<TypedArc>();
    is_shared::<TypedTransition>();
}
