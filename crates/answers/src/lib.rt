//! What all commands have in common: the forms of their command lines, the outcome with its exit status, what they say of
//! their files and in which text, the steps that lead there, and the lines that refuse a file.
#![tactic(auto)]

mod commands;
mod form;
mod forms;
mod outcomes;
mod replies;
mod stages;
#[cfg(test)]
mod tests;
mod texts;
mod verdicts;

pub use commands::Command;
pub use form::Form;
pub use forms::form_of;
pub use outcomes::{Outcome, status};
pub use replies::Reply;
pub use stages::{Refusal, Stage};
pub use texts::{put, put_number, refusal_text, too_long_text};
pub use verdicts::Verdict;
