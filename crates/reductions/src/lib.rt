//! The reduction of place/transition nets: places that never change and instances that never fire
//! are left out, and instances that are equal on the other places are merged.
#![tactic(auto)]

mod keys;
mod laws;
mod merging;
mod reduced;
mod rounds;

pub use laws::{
    enabled_are_live, examples_are_right, lifted_is_projected, reach_is_reduced, reduced_is_system,
};
pub use reduced::{Reduced, reduce};

/// What stands for a place of the net.
#[derive(Clone, Copy, Debug, PartialEq, Eq)]
pub enum Slot {
    /// It is the place of this number in the reduced net.
    Kept(u32),
    /// It is constant, with this count.
    Constant(u64),
}

/// What became of an instance.
#[derive(Clone, Copy, Debug, PartialEq, Eq)]
pub enum Fate {
    /// An input of it can't be marked.
    Dead,
    /// It takes more from a constant place than is there.
    Blocked,
    /// It has this number in the reduced net.
    Kept(u32),
    /// It is equal to the instance of this number in the reduced net.
    Merged(u32),
}
