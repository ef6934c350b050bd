//! Command lines over files in memory: their outcomes, and what is written.
#![tactic(auto)]

#[cfg(test)]
mod tests;
