//! Trees in prefix order, for any kind of node that says how many branches it has.
#![tactic(auto)]

mod opens;

pub use opens::Opens;
