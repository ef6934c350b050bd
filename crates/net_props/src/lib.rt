//! Properties of coloured nets (the property format of the Model Checking Contest): which markings
//! satisfy a formula, what a formula is on the unfolded net, and what a certificate shows of it.
//!
//! There is nothing to call: the definitions are those that contracts of other crates cite, and
//! each law is the contract of a function that does nothing.
#![tactic(auto)]

mod laws;

pub use laws::{examples_are_right, formulas_are_stated, resolved_means_the_same, shown_holds};
