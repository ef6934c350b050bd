//! Property files that break each rule, and the goals that formulas are, as tests; and layouts to resolve formulas in.
#![tactic(auto)]

mod layouts;

pub use layouts::{layout_of, names};

#[cfg(test)]
mod files;
#[cfg(test)]
mod rows;
#[cfg(test)]
mod tests;
