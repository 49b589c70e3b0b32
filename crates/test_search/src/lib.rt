//! The tests of the search, from literals to frames.
//!
//! A crate with tests is proved a second time with them, so the crates of the search have none: their
//! tests stand here together, a module for each layer, and call what these crates offer to those above
//! them. The proofs settle what the contracts say for all inputs. What is left for tests is that calls
//! succeed and clauses mean what they were to mean, on clauses, words and systems that were worked out
//! by hand; what no clause says, as what an adviser suggests; and that nothing takes long.
//!
//! The modules from below: `clauses` has what the others share, clauses of plain numbers. Then come
//! `literals`, `derivations`, `stores`, `circuits`, `words`, `advisers`, `choices`, `searches`, `lessons`,
//! `simpler` and `frames`.
#![tactic(auto)]

#[cfg(test)]
mod advisers;
#[cfg(test)]
mod choices;
#[cfg(test)]
mod circuits;
#[cfg(test)]
mod clauses;
#[cfg(test)]
mod derivations;
#[cfg(test)]
mod frames;
#[cfg(test)]
mod lessons;
#[cfg(test)]
mod literals;
#[cfg(test)]
mod searches;
#[cfg(test)]
mod simpler;
#[cfg(test)]
mod stores;
#[cfg(test)]
mod words;
