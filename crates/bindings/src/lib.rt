//! The bindings of variables in order: how many there are, and the binding of a number.
#![tactic(auto)]

mod laws;
mod numbers;

pub use laws::{
    bindings_are_counted, bindings_are_in_range, bindings_are_numbered, bindings_rise,
    numbers_and_bindings_are_inverse, small_instances_hold,
};
pub use numbers::{binding_at, count_of};

#[cfg(test)]
mod tests;
