//! Nets with chains of references, and where these lead or why they don't.
#![tactic(auto)]

#[cfg(test)]
mod tests;
