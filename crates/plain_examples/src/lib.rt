//! Examples of the texts, rows and judgements of the first path, as tests.
#![tactic(auto)]

#[cfg(test)]
mod judge_tests;
#[cfg(test)]
mod rows_tests;
#[cfg(test)]
mod text_tests;
