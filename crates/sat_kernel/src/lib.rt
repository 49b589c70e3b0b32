//! A search that proposes answers. Nothing that it says is trusted: contracts say of its calls that they return, and who asks sees to it
//! that an assignment makes all clauses true, and that each learned clause follows by its hints from those before it.
//!
//! [`Kernel`] is clause learning with two watched literals a clause, over its own copies of the clauses in small numbers that lie one
//! behind the other. [`Kernel::ask`] answers a [`Proposal`]; the clauses that it learned on the way, with their hints, are
//! [`Kernel::take_steps`]. What it learned lately stays for the next question.
#![tactic(auto)]

mod analysis;
mod clauses;
mod decisions;
mod kernel;
mod numbers;
mod propagation;
mod trail;

pub use kernel::{Kernel, Proposal};
