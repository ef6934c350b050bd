//! The commands on nets: the steps from the bytes of a net file on, and what each command says of them.
//!
//! The definitions in `specs/` say what the bytes of a file come to, step by step.
#![tactic(auto)]

mod canons;
mod documents;
mod lines;
mod nets;

pub use canons::canon;
pub use documents::document;
pub use nets::net_of_tree;
