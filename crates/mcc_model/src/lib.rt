//! Property files of the Model Checking Contest: which of them break a rule, what properties they hold, and which goal the
//! formula of a property is. No formula has a meaning yet.
#![tactic(auto)]

mod faults;
mod formulas;
mod parts;
mod properties;
mod sharing;

pub use faults::FormulaFault;
pub use formulas::{Count, Formula, Goal};
pub use parts::{Part, word_of};
pub use properties::{Properties, Property};
pub use sharing::goals_are_shared;
