//! Place/transition nets with sparse rows: their instances, markings and firing
//! (ISO/IEC 15909-1).
#![tactic(auto)]

mod arrays;
mod instances;
mod layouts;
mod markings;
mod nets;
mod packed;
mod rows;

pub use instances::{Instance, Origin, Side};
pub use layouts::Layout;
pub use markings::{FireFault, Marking};
pub use nets::{PtNet, PtNetBuilder};
pub use packed::{Entry, Packed};
pub use rows::count_at;

#[cfg(test)]
mod tests;
