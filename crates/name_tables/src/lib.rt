//! Names as byte strings, the grammars of ids and of numbers, numbered sets of names, and tables of fixed words.
#![tactic(auto)]

mod grammar;
mod names;
mod numbering;
mod tables;
mod words;

pub use grammar::{decimal, decimal_is_read_back, is_id, read_number};
pub use names::Name;
pub use numbering::{Added, Ids};
pub use tables::Table;
pub use words::{cert_words, formula_words, net_attributes, net_words, rule_words};

#[cfg(test)]
mod tests;
