//! Documents with the places at which they are malformed, read in pieces of several lengths.
#![tactic(auto)]

#[cfg(test)]
mod tests;
