//! Exact checks of linear obligations over the places of a net: that a flow is kept, that a bound
//! holds at first and is kept up, and that a combination of forms is refuted.
//!
//! Each answer is false, out of range or true, in this order, by the definitions of `cert_model`. No
//! check takes memory.
#![tactic(auto)]

mod flows;
mod forms;
mod laws;
mod tallies;

pub use cert_model::Check;
pub use flows::{bound_true, flow_true};
pub use forms::{Constant, Form, Term};
pub use laws::{bound_owes_its_base, trap_owes_its_base};
