//! What the ids of a net's nodes name, and the place or the transition for which each reference stands (ISO/IEC 15909-2).
#![tactic(auto)]

mod laws;
mod links;
mod names;
mod nodes;
mod table;
mod walking;

pub use laws::small_instances_hold;
pub use nodes::{End, Node, NodeFault, ReferenceFault};
pub use table::NodeTable;
