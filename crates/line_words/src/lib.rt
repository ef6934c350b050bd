//! Lines of words: what the words of a line are, the readers and the spelling of one word and of lists of words, and
//! one reader that cuts bytes in pieces into numbered lines.
#![tactic(auto)]

mod cutter;
mod items;
mod lines;
mod lists;
mod parts;
mod reader;
mod taker;
mod texts;
mod words;

pub use items::{Factor, InstanceRef, Multiplier, PlaceRef, Weight};
pub use lines::{Line, LineForm, read_line};
pub use lists::{Listed, no_more, read_list, read_next};
pub use parts::{read_factor, read_instance, read_place};
pub use reader::LineReader;
pub use taker::TakesLines;
pub use texts::{Spelled, Text};
pub use words::{Words, cut_at};
