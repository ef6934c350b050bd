//! Coloured firing of symmetric nets (ISO/IEC 15909-1), the unfolded place/transition net, and the laws by which the runs of the one
//! are those of the other.
//!
//! There is nothing to call: the definitions are those that contracts of other crates cite, and each law is the contract of a function
//! that does nothing.
#![tactic(auto)]

mod laws;

pub use laws::{
    counts_are_markings, firings_correspond, modes_are_numbered, reaches_correspond,
    rows_are_told_by_amounts, runs_correspond, small_instances_hold,
};
