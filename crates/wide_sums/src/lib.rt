//! Exact sums of whole numbers in 128 bits, sparse rows of counts, and a counter of steps for
//! contracts.
#![tactic(auto)]

mod counters;
mod refusals;
mod rows;
mod sums;

pub use counters::Steps;
pub use refusals::{Memory, Wide};
pub use rows::{Cell, Row};
pub use sums::Sum;

#[cfg(test)]
mod tests;
