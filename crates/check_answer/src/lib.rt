//! What `check` says of its files, and in which text.
//!
//! The definitions in `specs/` speak of the files' bytes alone.
#![tactic(auto)]

mod laws;
mod refusals;
mod replies;
mod report;
mod verdicts;

pub use laws::holds_is_invariant;
pub use replies::{Operands, check};
