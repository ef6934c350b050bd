//! The place/transition net of a file that stands for an unfolded net: its ids, its arcs, and the laws by which it means the same.
//!
//! There is nothing to call: the definitions are those that contracts of other crates cite, and each law is the contract of a function
//! that does nothing.
#![tactic(auto)]

mod laws;

pub use laws::{files_have_ids, files_mean_the_same, instances_have_ids};
