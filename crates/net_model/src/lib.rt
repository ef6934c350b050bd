//! Nets as files say them (ISO/IEC 15909-2): sorts, partitions, terms and guards as they are written, what places, transitions,
//! references and arcs a net has, and what it declares. No value here has a meaning yet.
#![tactic(auto)]

mod kinds;
mod nets;
mod sharing;
mod sorts;
mod terms;

pub use kinds::Kind;
pub use nets::{Arc, Label, Net, Place, RefKind, Reference, Transition, VariableDecl};
pub use sharing::written_values_are_shared;
pub use sorts::{Block, Member, NamedSort, Partition, SortTerm, Span};
pub use terms::{Guard, Order, Term};
