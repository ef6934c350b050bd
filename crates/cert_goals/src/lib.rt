//! What a certificate shows of the goals of its properties, over a coloured net, and which tokens its
//! names stand for.
//!
//! There is nothing to call: the definitions are those that contracts of other crates cite, and
//! each law is the contract of a function that does nothing.
#![tactic(auto)]

mod laws;

pub use laws::{shown_holds, shown_sections_hold, tokens_are_named};
