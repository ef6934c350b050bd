//! What readers of bytes that come in pieces have in common.
//!
//! The crate has this trait alone and no dependencies, so that each crate with a reader can stand on it.
#![tactic(auto)]

mod reader;

pub use reader::PieceReader;
