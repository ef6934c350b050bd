//! Documents read into trees, from pieces of any length, and written.
#![tactic(auto)]

mod attributes;
mod characters;
mod faults;
mod feeding;
mod laws;
mod lists;
mod places;
mod reader;
mod runs;
mod stack;
mod stepping;
mod tokens;

pub use doc_model::{Attribute, Element, TextWriter, write};
pub use faults::{DocFault, Fault};
pub use laws::{
    documents_have_one_answer, small_instances_hold, spelled_tree_is_one, written_text_is_spelled,
};
pub use reader::{Reader, read_pieces};
