//! The checker of certificates, which stands on no solver.
//!
//! [`check`] answers whether a certificate is accepted for a model with its faults and a top event, or the
//! objection to it ([`Judged`]). The eleven rules and the objection are defined in `cert_laws`; what they
//! speak of here are the clause lists of the model with history (`sat_encoding_laws`) and the flat traces that the
//! texts give (`cut_text_laws`), as `specs/Matter.antt` says. What an accepted certificate shows, whoever
//! wrote it, is a law of `cert_laws`.
//!
//! The sites of a certificate are judged in the order of their lines, and each function here answers for the
//! sites of a part what is found at them (`specs/SiteFindings.antt`). The files from below: `judged` (the answer),
//! `question` (what is asked), `lines` (where its parts stand), `sets` (the numbers and the sets), `traces` (the
//! texts of traces), `listed` (each set with its trace), `clauses` (the invariant), `steps` (one derivation),
//! `parts` (the three), `judge` (all sites), and `unlisted` ([`check_unlisted`], for certificates that may list no set). A step costs what
//! its hints name. The lists of the model are made one at a time, each for its derivation.
//!
//! ```text
//! check(alloc, &full, &plain, &faults, &top, &certificate)    // Yes, or No(7, 10): at line 7 no hint was false
//! ```
#![tactic(auto)]

mod clauses;
mod judge;
mod judged;
mod laws;
mod lines;
mod listed;
mod parts;
mod question;
mod sets;
mod steps;
mod traces;
mod unlisted;

pub use judge::check;
pub use judged::Judged;
pub use laws::spelled_are_checkable;
pub use sets::is_fault;
pub use unlisted::check_unlisted;
