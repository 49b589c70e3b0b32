//! An adviser that prints what a search has come to, for a program whose search is watched.
//!
//! [`Watched`] has an adviser that does the work, and is that adviser in all that contracts see: the same counts, the same room. What
//! it hears of a search it prints on standard error, a line for each piece of news, and lets its adviser hear it too. A line that can't
//! be printed is lost, and nothing else is changed.
//!
//! ```text
//! frontier 3
//! set 7 1 4       a set of the faults 1 and 4, in a trace of 7 steps
//! invariant
//! goal 12 80      12 of 80 goals are derived
//! ```
#![tactic(auto)]

mod watched;

pub use watched::Watched;
