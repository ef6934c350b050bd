//! What certificates over a reduced net tell of the net that was reduced.
//!
//! There is nothing to call: the definitions are those that contracts of other crates cite, and
//! each law is the contract of a function that does nothing.
#![tactic(auto)]

mod laws;

pub use laws::{
    examples_are_right, firing_is_reduced, formulas_are_reduced, plain_nets_mean_the_same,
    shown_holds_at_reached,
};
