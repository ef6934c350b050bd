//! The canonical texts of the three files of `check`, read exactly.
//!
//! A reader makes a value that the bytes may be the text of, and then compares its canonical text
//! with them, piece by piece, without writing it down.
#![tactic(auto)]

mod certificate_pieces;
mod certificate_reader;
mod comparison;
mod examples;
mod faults;
mod net_pieces;
mod net_reader;
mod property_pieces;
mod property_reader;
mod source;

pub use certificate_reader::read_certificate;
pub use examples::ring_texts;
pub use faults::TextFault;
pub use net_reader::read_net;
pub use property_reader::read_property;
