//! The tests of the tables of a program, which `smv_scope` makes.
//!
//! A crate with tests is proved a second time with them, so `smv_scope` has none: they stand here. The proofs settle
//! which definitions are on a circle, and that an instance repeats the one that it is said to repeat. What is left for
//! tests is that the calls succeed, and that their clauses mean what they were to mean, on programs whose answer was
//! worked out by hand.
#![tactic(auto)]

#[cfg(test)]
mod circles;
#[cfg(test)]
mod likes;
