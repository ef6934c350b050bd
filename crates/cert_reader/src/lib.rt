//! Certificates, read in pieces and written.
#![tactic(auto)]

mod drafts;
mod facts;
mod faults;
mod laws;
mod reader;
mod stages;

pub use cert_lines::{
    Cert, Fact, FactKind, Factor, InstanceRef, Multiplier, Node, NodeForm, PlaceRef, Section, Step,
    Version, Weight, read_factor, read_instance, read_place, write_cert,
};
pub use faults::CertFault;
pub use laws::{certificates_have_one_answer, written_certificate_is_read};
pub use reader::{CertReader, read_cert};
