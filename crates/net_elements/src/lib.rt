//! The elements of net files (ISO/IEC 15909-2): the table of what each of them holds, and the rules that a tree breaks.
#![tactic(auto)]

mod attributes;
mod faults;
mod laws;
mod roles;
mod rows;
mod seats;
mod walker;

pub use attributes::{kind_of, trimmed, truth_of, value_of};
pub use faults::ReadFault;
pub use laws::small_instances_hold;
pub use roles::{Role, word_of};
pub use seats::{is_passed_over, role_named};
pub use walker::check;
