//! The commands: `run` does what the words of a command line say.
//!
//! The definitions in `specs/` say what the answer to a command line is, where it is told which names are held. Two of their
//! tables have a row for each command, `IsReply` and `Shows`.
#![tactic(auto)]

mod ending;
mod laws;
mod replies;
mod running;

pub use ending::end_of;
pub use laws::{answers_are_one, answers_exist, holds_shows_an_invariant, too_long_is_told};
pub use running::run;
