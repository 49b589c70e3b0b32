//! The tests of tables, of bounds on probabilities and of the generator.
//!
//! A crate with tests is proved a second time with them, so those crates have none, and theirs stand here.
//! They show that calls succeed and that the texts are those that were worked out by hand.
#![tactic(auto)]

#[cfg(test)]
mod generator;
#[cfg(test)]
mod odds;
#[cfg(test)]
mod tables;
