//! The tests of what expressions and programs cost, which `smv_types` counts before names are resolved, and `smv_model`
//! before a flat model is made.
//!
//! A crate with tests is proved a second time with them, so the two have none: they stand here. The proofs settle that each
//! count is the sum that `smv_type_laws` defines, and that no flat model costs less. What is left for tests is that the
//! calls succeed, and that the sum is what a reader of a text comes to, on texts that were counted by hand.
#![tactic(auto)]

#[cfg(test)]
mod costs;
#[cfg(test)]
mod counts;
