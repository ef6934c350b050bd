//! Certificates with what they say, and damaged ones with their first faults.
#![tactic(auto)]

#[cfg(test)]
mod tests;
