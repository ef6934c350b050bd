//! The modes of a typed net: its places, and its transitions with their compiled guards and arcs, as plain values that can be unfolded.
#![tactic(auto)]

mod modes;
mod sharing;

pub use modes::{NetModes, TypedArc, TypedPlace, TypedTransition};
pub use sharing::modes_are_shared;
