//! Sorts and partitions that are written as text, and declarations that are built of them.
#![tactic(auto)]

mod apart;
mod built;
mod written;

pub use apart::distinct_ids;
pub use built::{BuildFault, Built, build};
pub use written::{cut, partitions, sort, sorts, span, spanned, word_for};
