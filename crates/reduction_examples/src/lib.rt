//! Nets that are made instance by instance, with their closures and their reductions.
#![tactic(auto)]

mod drafts;

pub use drafts::Draft;

#[cfg(test)]
mod tests;
