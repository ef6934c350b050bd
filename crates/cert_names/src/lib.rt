//! What the names in a certificate stand for, and what a certificate comes to over a reduced net.
//!
//! There is nothing to call: the definitions are those that contracts of other crates cite, and
//! each law is the contract of a function that does nothing.
#![tactic(auto)]

mod laws;

pub use laws::{
    claims_hold, each_is_shown, examples_are_right, facts_are_claims, names_are_numbered,
    shown_holds_at_reached, splits_are_claims, trees_are_walked,
};
