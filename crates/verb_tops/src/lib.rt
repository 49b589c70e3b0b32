//! Analyses a case for each of the top events of a file, in frames that are kept from one event to the next.
//!
//! [`run::run_each`] reads the words of `analyse`, with the word of the top event as the name of a file of top events, and the name of
//! the certificate as the beginning of the names of certificates. The three files are read, and refused, as `fmea` does it
//! (`verb_run::tops`). Then the extension is written, and event after event searched: the certificate of a complete answer is written to
//! a file of its own, and the report is printed after a line with the number of the event. What stands of each event is
//! what `analyse` promises of it alone (`specs/Each`).
//!
//! The files: `event` (the search for one event), `each` (all events of a case), and `run`.
//!
//! ```text
//! event 1
//! analysis
//! ..
//! ```
#![tactic(auto)]

pub mod each;
mod event;
pub mod run;
