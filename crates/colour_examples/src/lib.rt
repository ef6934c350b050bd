//! Declared sorts and partitions with what they stand for, or with the first rule that they break.
#![tactic(auto)]

#[cfg(test)]
mod colours;
#[cfg(test)]
mod limits;
#[cfg(test)]
mod rules;
