//! Documents that break each rule of nets, with the place of the first one.
#![tactic(auto)]

#[cfg(test)]
mod tests;
