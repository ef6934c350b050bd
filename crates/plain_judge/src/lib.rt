//! Judges the obligations of a certificate of flows over packed rows, by exact sums of 128 bits.
//!
//! The obligations are taken in order: each flow with each transition, and then the `close` line.
//! The first one that isn't true decides.
#![tactic(auto)]

mod closes;
mod constants;
mod examining;
mod faults;
mod flows;
mod incidences;
mod judging;
mod marks;
mod naming;
mod numbered;
mod properties;
mod residuals;
mod searches;
mod settling;
mod spreads;
mod steps;

pub use faults::JudgeFault;
pub use judging::judge;
pub use properties::NumberedProperty;
