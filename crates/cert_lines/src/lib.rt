//! What a certificate says as a value, what one line of it says, and its canonical text.
#![tactic(auto)]

mod certificates;
mod laws;
mod lines;
mod sharing;
mod statements;
mod sums;
mod texts;

pub use certificates::{Cert, Fact, FactKind, Node, NodeForm, Section, Step, Version};
pub use laws::written_line_is_read;
pub use line_words::{
    Factor, InstanceRef, Line, Multiplier, PlaceRef, Weight, cut_at, read_factor, read_instance,
    read_place,
};
pub use lines::read_line;
pub use sharing::certificates_are_shared;
pub use statements::{Claim, Statement, StepClaim};
pub use sums::{Valued, is_past};
pub use texts::write_cert;
