//! The verb `odds`: bounds on the probabilities of minimal cut sets, over any desk.
//!
//! [`odds::find_odds`] reads a model, instructions whose modes are marked with probabilities, and a top event, searches for
//! the minimal cut sets, and says them with their bounds. The bounds themselves are made by `fault_odds`.
//!
//! ```text
//! odds --model lamp.smv --faults lamp.fei --top '!on' --depth 4
//! ```
#![tactic(auto)]

pub mod odds;
mod report;
