//! The net of a file as numbered places and a net of sparse rows.
#![tactic(auto)]

mod building;
mod entries;
mod faults;
mod filling;
mod nodes;
mod numbers;

pub use building::{PlainRows, build};
pub use faults::BuildFault;
pub use numbers::Numbers;
