//! Small nets and forms, with what the checks of linear obligations say of them.
#![tactic(auto)]

mod builders;

pub use builders::{form, net};

#[cfg(test)]
mod tests;
