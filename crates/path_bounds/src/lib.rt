//! Lower and upper bounds of places along a path: they are named one after the other, and taken back.
#![tactic(auto)]

mod bounds;
mod paths;
mod trails;

pub use bounds::Bounds;
pub use paths::PathBounds;

#[cfg(test)]
mod tests;
