//! Tests of the encoding, over public calls alone.
//!
//! The crate has no code of its own. Each test tries all patterns of bits: whether a clause list can be made true with
//! exactly these bits is asked of the solver, and what it must be is asked of the evaluation, over the values that the
//! bits stand for by the written rules. `models` has the typed models of texts and the moments of patterns, `clauses`
//! what is asked of clause lists, `rows` the lists of models, and `bad` those of bad states, with the two lists that
//! were worked out by hand.
#![tactic(auto)]

#[cfg(test)]
mod bad;
#[cfg(test)]
mod clauses;
#[cfg(test)]
mod models;
#[cfg(test)]
mod rows;
