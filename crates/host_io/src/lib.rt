//! Files, a sink and a gate, as traits of the outside, and what stands for them.
//!
//! A program takes its files from a [`Files`] and gives its output to a [`Sink`]. Contracts know of
//! these what an object tells: the bytes of each name that it holds, the bytes that it has taken,
//! and a count of faults that rises at each failure of its own.
#![tactic(auto)]

mod host;
mod memory;
mod outside;
#[cfg(test)]
mod tests;

pub use host::{HostFiles, HostSink};
pub use memory::{MemFiles, MemSink};
pub use outside::{Failed, Files, Gate, OpenGate, Phase, Sink};
