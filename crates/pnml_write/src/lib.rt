//! The canonical texts of nets, as net files (ISO/IEC 15909-2).
#![tactic(auto)]

mod counts;
mod elements;
mod guards;
mod labels;
mod laws;
mod nodes;
mod sorts;
mod terms;
mod writing;

pub use laws::small_net_has_its_text;
pub use writing::write_net;
