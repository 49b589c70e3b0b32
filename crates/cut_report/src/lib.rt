//! The texts of traces and of lists of faults: printed, and traces read.
//!
//! [`print_trace`] gives the text of a trace of a typed model, one line for each moment and each value, and
//! [`read_trace`] the trace that a text gives, or what is wrong first with it ([`TraceFault`]). What a text
//! gives, and what is wrong first, stands in `cut_text_laws`, over the flat model as definitions see it;
//! `specs/Told.antt` says how valuations by number are seen there. [`print_faults`] gives the lines of the
//! faults, whose text stands in `specs/FaultText.antt`.
//!
//! The files from below: `text` (pieces that are appended to a buffer), `traces` and `fault_list` (printing),
//! `values` (one value's text), `lookup` (a model's names and values),
//! `lines` (lines cut into words), `fault` (what is wrong with a text), `reading` (a text read line
//! by line) and `whole` (the whole text). All
//! of it is linear in the text: names are looked up in a map, and a moment that lacks a value costs no more
//! than its lines.
//!
//! ```text
//! read_trace(alloc, &typed, b"moment 0\non = TRUE\n")    // one moment: on is TRUE
//! read_trace(alloc, &typed, b"moment 0\non = 2\n")       // Outside(2)
//! ```
#![tactic(auto)]

mod analysis;
mod fault;
mod fault_list;
mod lines;
mod lookup;
mod reading;
mod text;
mod traces;
mod values;
mod whole;

pub use analysis::{Findings, append_ending, append_sets, print_analysis};
pub use fault::TraceFault;
pub use fault_list::print_faults;
pub use traces::print_trace;
pub use whole::read_trace;
