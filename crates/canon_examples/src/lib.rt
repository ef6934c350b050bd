//! Documents, with the canonical texts of the nets that they give.
#![tactic(auto)]

#[cfg(test)]
mod tests;
