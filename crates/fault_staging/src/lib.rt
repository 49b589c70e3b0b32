//! Flat models with common causes added.
//!
//! A [`Cause`] is known by its name, its window and the numbers of the faults that it strikes. [`with_causes`] adds to
//! the flat model of an extension what tells of causes: the age, the event and the hits of each, and the events of faults
//! that begin by themselves. What the model then is stands in `specs/StagedModel.antt` of `fault_cause_laws`, which has the theorems:
//! its traces are the caused traces, one each, and its events those of caused traces.
//!
//! ```text
//! // CAUSE Surge WITHIN 0..0 STRIKES A.on, B.on;
//! // adds Surge#age, Surge#event, Surge#hit#1, Surge#hit#2, own#1 and own#2
//! ```
#![tactic(auto)]

pub mod build;
mod cause;
mod events;
pub mod names;
mod staging;

pub use cause::{Cause, CauseList};
pub use staging::{Staged, with_causes};
