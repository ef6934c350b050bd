//! A walk over trees in prefix order, from state to state, one call for each depth.
//!
//! A node stands before its branches. What a path from the root supposes, what a visit finds and how often a node's branches are
//! walked is the path's own ([`Path`]); the walk only knows the order in which nodes are visited.
#![tactic(auto)]

mod paths;
mod sizes;
mod walks;

pub use paths::Path;
pub use sizes::sizes_of;
pub use walks::walk_tree;

#[cfg(test)]
mod tests;
