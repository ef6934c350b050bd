//! What the three files of `check` say, as values, and what is to be shown of them.
//!
//! A plain net is a place/transition net without references, a property is one `all-paths
//! globally` over two counts, and a certificate has place flows and one `close`. The definitions
//! in `specs/` say what firing reaches, what the property's invariant is, and when each obligation
//! of the certificate is true. They speak of the files' values alone, with unbounded numbers.
#![tactic(auto)]

mod certificates;
mod laws;
mod nets;
mod properties;
mod verdicts;

pub use certificates::{Certificate, Factor, Flow, Multiplier, Weight};
pub use laws::{ring_reports_are_right, ring_slack_is_right, shown_is_invariant};
pub use nets::{Arc, Place, PlainNet};
pub use properties::{Count, Property};
pub use verdicts::{Check, Judged, Spot};
