//! The path in a case tree: what it supposes, by the items that were entered, and what a walk over trees costs.
#![tactic(auto)]

mod agendas;
mod branches;
mod costs;
mod nodes;
mod paths;
mod sections;

pub use agendas::Agenda;
pub use costs::CostPath;
pub use nodes::{Kind, Node};
pub use paths::{CasePath, Supposed};
pub use sections::Section;

#[cfg(test)]
mod tests;
