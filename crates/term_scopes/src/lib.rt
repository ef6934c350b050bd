//! Sorts, partitions and variables that terms are compiled over, and the values of terms and guards.
#![tactic(auto)]

mod binding;
mod scope;

pub use binding::{ExampleFault, truth, value};
pub use scope::{Scope, ScopeFault, declared, written};
