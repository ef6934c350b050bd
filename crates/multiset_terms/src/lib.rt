//! Terms and guards of symmetric nets: their types, their values, and their compiled forms.
#![tactic(auto)]

mod asking;
mod buffers;
mod cells;
mod compiled;
mod compiling;
mod compiling_guards;
mod conditions;
mod counts;
mod differences;
mod faults;
mod guards;
mod indices;
mod kinds;
mod laws;
mod leaves;
mod making;
mod marks;
mod over;
mod parts;
mod sharing;
mod trees;
mod values;
mod variables;

pub use buffers::{Scale, merge};
pub use compiled::{
    CTerm, eval, eval_into, gross, guard_uses, holds, is_block, mark_guard_uses, mark_uses, part,
    part_count, sort_of, support, uses,
};
pub use compiling::compile_term;
pub use compiling_guards::compile_guard;
pub use conditions::CGuard;
pub use counts::dots;
pub use faults::{EvalFault, TermFault};
pub use indices::is_binding;
pub use laws::{
    built_declarations_are_a_scope, colours_are_told_apart, colours_stand_once,
    compiled_terms_can_be_evaluated, declarations_can_be_used, indices_in_range_bind, nodes_agree,
    numbers_agree_with_colours, parts_make_the_guard, small_instances_hold,
    values_depend_on_variables,
};
pub use net_model::{Guard, Order, Term};
pub use over::compile_over;
pub use sharing::compiled_terms_are_shared;
pub use variables::Variables;
