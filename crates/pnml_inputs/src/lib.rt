//! Reading the files of a command, in pieces, and writing its text.
#![tactic(auto)]

mod inputs;
mod intake;
mod keeper;
mod output;
mod sources;
#[cfg(test)]
mod tests;

pub use inputs::{Inputs, MAX_BYTES, Role, Stop, new_buffer, read_input, read_inputs};
pub use keeper::Keeper;
pub use output::put_all;
pub use sources::{Source, read_source, read_whole};
