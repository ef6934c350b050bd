//! Visits of trees in prefix order, for any kind of node and of state.
//!
//! A list of nodes, each before its branches, spells trees. A walk visits each tree from a state:
//! its node first, and then its branches from the states that the node leads to, all of them once
//! for each list of such states. Here are the definitions (`specs/`) and two lemmas that crates
//! above cite: a tree whose visits all pass begins at no state that is met, where each node that
//! passes leads what is met on; and the visits from states that stand for others are theirs.
#![tactic(auto)]
