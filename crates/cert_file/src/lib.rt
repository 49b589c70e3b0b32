//! The files of certificates: read for all verbs that judge one, and written by all that search.
//!
//! [`certificate::load_certificate`] reads the certificate that a file spells, or tells the first line that is wrong or missing;
//! [`certificate::line_stop`] is the end of the work where a line breaks a rule, and [`certificate::accepted_report`] what is said
//! of one that is accepted. Certificates are judged in `cert_check`, which the verbs above call. No crate of the search stands below.
//! [`conclusion::conclude`] writes the certificate that a search ended with, and says its report.
//!
//! What is wrong with such a file and what it holds stands in `specs/CertificateFiles.antt`, and that both are one in
//! `proofs/OneCertificate.antt`.
//!
//! ```text
//! load_certificate(alloc, desk, "lamp.cert")?    // refused cert read 2 at 7
//! ```
#![tactic(auto)]

pub mod certificate;
pub mod conclusion;
