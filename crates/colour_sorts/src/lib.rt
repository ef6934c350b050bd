//! Sorts of coloured nets (ISO/IEC 15909-1), their colours as positions, and partitions of sorts.
#![tactic(auto)]

mod breaking;
mod building;
mod comparing;
mod compiling;
mod counting;
mod cycles;
mod dividing;
mod domains;
mod facts;
mod groups;
mod judging;
mod knowing;
mod laws;
mod limiting;
mod lookups;
mod naming;
mod ordering;
mod partitions;
mod placing;
mod resolving;
mod rules;
mod sharing;
mod sorts;
mod threads;
mod walking;
mod words;

pub use comparing::{copy_sort, same_sort};
pub use domains::Domains;
pub use laws::{
    divided_sorts_have_blocks, named_sorts_are_resolved, small_instances_hold,
    sorts_are_told_apart, unbroken_sorts_have_colours, words_of_rules_are_listed,
};
pub use net_model::{Block, Member, NamedSort, Partition, SortTerm, Span};
pub use rules::{ResolveFault, Rule, SortFault};
pub use sorts::{Colour, Declared, Sort};
