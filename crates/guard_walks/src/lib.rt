//! The bindings under which a guard is true, in order: a guard is tested part by part while its variables are bound, and where a part is
//! false all bindings that begin so are passed over.
#![tactic(auto)]

mod making;
mod parts;
mod testing;
mod walking;
mod walks;

pub use walking::bind;
pub use walks::{GuardWalk, Signature, Test};
