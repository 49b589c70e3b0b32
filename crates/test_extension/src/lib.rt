//! The tests of all that stands between texts and the woven program.
//!
//! A crate with tests is proved a second time with them, so the crates below have none: their tests stand
//! here together, a module for each layer, and call what these crates offer to those above them. The proofs
//! settle what the contracts say for all inputs. What is left for tests is that calls succeed and clauses
//! mean what they were to mean, on texts whose answer was worked out by hand; what no clause says, as how
//! long the pieces are that are written; and that nothing takes long or runs out of stack.
//!
//! The modules from below: `texts` has what the others share, the programs, instructions and expressions
//! that texts spell. Then come `lists`, `tokens`, `printing`, `programs` and `instructions` (reading),
//! `flat`, `copies`, `kinds`, `effects`, `rules`, `weaving` and `desk`.
#![tactic(auto)]

#[cfg(test)]
mod copies;
#[cfg(test)]
mod desk;
#[cfg(test)]
mod effects;
#[cfg(test)]
mod flat;
#[cfg(test)]
mod instructions;
#[cfg(test)]
mod kinds;
#[cfg(test)]
mod lists;
#[cfg(test)]
mod printing;
#[cfg(test)]
mod programs;
#[cfg(test)]
mod rules;
#[cfg(test)]
mod texts;
#[cfg(test)]
mod tokens;
#[cfg(test)]
mod weaving;
