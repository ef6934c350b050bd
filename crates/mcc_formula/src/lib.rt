//! Property files of the Model Checking Contest: their properties, one that is named, and the goal that it is over the numbers of
//! a net.
#![tactic(auto)]

mod formulas;
mod numbers;
mod reading;
mod resolving;
mod sets;
mod table;
mod walk;

pub use mcc_model::{Count, Formula, FormulaFault, Goal, Properties, Property};
pub use reading::{find, read_properties};
pub use resolving::resolve;
