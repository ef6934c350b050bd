//! Laws of the canonical texts of nets.
#![tactic(auto)]

mod laws;

pub use laws::{
    canonical_texts_give_the_net, canonical_texts_stay, canonical_texts_tell_nets_apart,
    canonical_trees_give_the_net, read_nets_are_spelled, read_nets_are_told_apart, read_nets_stay,
};
