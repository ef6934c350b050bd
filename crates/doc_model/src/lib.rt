//! Trees of document elements, and their canonical text.
#![tactic(auto)]

mod text;
mod tree;

pub use text::{TextWriter, write};
pub use tree::{Attribute, Element};

#[cfg(test)]
mod tests;
