//! The text of certificates, written and read.
//!
//! [`write`] gives the text of a certificate, and [`read`] the certificate that a text spells, or the line
//! that is wrong first or missing ([`CertFault`]). Which bytes spell a certificate, and what is wrong first
//! with bytes that spell none, stands in `cert_laws`; `specs/CertificateView.antt` says which certificate of those
//! definitions a [`Certificate`] is. Both are linear in the text, and no room is reserved by a number that a
//! text claims. The lines of a trace lie in one text, and are seen as a list
//! ([`LineList`]); so are the steps of a derivation, which lie in two lists ([`PackedSteps`]).
//!
//! ```text
//! xsap-certificate 2
//! bits 1 faults 0 size 0
//! sets 0
//! invariant 1
//! clause -2
//! first 1
//! step -2 : 1 6 4
//! ```
#![tactic(auto)]

mod certificate;
mod line_list;
mod lines;
mod numbers;
mod packed;
mod pieces;
mod reading;
mod whole;
mod words;
mod writing;

pub use certificate::{CertFault, Certificate, TextList, copy_texts};
pub use line_list::LineList;
pub use packed::PackedSteps;
pub use whole::read;
pub use writing::write;
