//! Closures of sets of places, and the traps and siphons that they show.
#![tactic(auto)]

mod closures;
mod laws;
mod sets;
mod siphons;

pub use closures::marked_support;
pub use laws::outside_is_largest_siphon;
pub use sets::{InstanceSet, PlaceSet};
pub use siphons::{is_siphon, trap_true};
