//! The typing of symmetric nets (ISO/IEC 15909-2): why a net is refused, and its declarations, places, guards and arcs as they are typed.
#![tactic(auto)]

mod arcs;
mod faults;
mod guards;
mod inscribed;
mod places;
mod scope;
mod sorts;
mod weights;

pub use arcs::{ArcTyping, Ends, typed_arcs};
pub use faults::{LimitKind, NetFault};
pub use guards::typed_guards;
pub use inscribed::Inscribed;
pub use places::{PlaceTyping, typed_places};
pub use scope::Scope;
pub use sorts::SharedSort;
