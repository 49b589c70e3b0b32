//! The verbs `causes` and `check-causes`: minimal cut sets of faults and common causes, over any desk.
//!
//! [`causes::find_causes`] reads a model, instructions and a causes file, and searches the staged model, whose events are the
//! faults that begin by themselves and the causes; [`causes::check_causes`] judges a certificate of that. The files stand in
//! the order of the work: `staged` (what is loaded) and `causes` (both verbs). Causes are read in `fault_causes_reader`, the
//! staged model is made by `fault_staging`, and what it means stands in `cut_reach_laws`.
//!
//! ```text
//! causes --model pair.smv --faults pair.fei --causes surge.txt --top 'a & b' --depth 200 --cert pair.cert
//! ```
#![tactic(auto)]

pub mod causes;
pub mod staged;
