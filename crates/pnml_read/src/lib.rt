//! Nets read from the trees of net files (ISO/IEC 15909-2).
#![tactic(auto)]

mod children;
mod guards;
mod labels;
mod laws;
mod lists;
mod reading;
mod sorts;
mod terms;
mod values;

pub use doc_tree::Fault;
pub use laws::small_tree_gives_its_net;
pub use net_elements::ReadFault;
pub use net_model::{
    Arc, Block, Guard, Kind, Label, Member, NamedSort, Net, Order, Partition, Place, RefKind,
    Reference, SortTerm, Span, Term, Transition, VariableDecl,
};
pub use reading::read_net;
