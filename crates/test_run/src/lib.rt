//! The tests of the whole program over desks in memory.
//!
//! A crate with tests is proved a second time with them, so the crate of the top call has none: they stand here. The
//! modules: `desks` (what the others share), `extensions` (models that are extended, and every kind of refusal), `replays`,
//! `analyses` (with tables and generated cases), `certificates`, `further` (common causes, orders and odds), `advisers` (what each
//! search asks and tells), `failing` (each call of each verb that fails) and `hostile` (failing desks, cut files, altered certificates).
#![tactic(auto)]

#[cfg(test)]
mod advisers;
#[cfg(test)]
mod analyses;
#[cfg(test)]
mod certificates;
#[cfg(test)]
mod desks;
#[cfg(test)]
mod extensions;
#[cfg(test)]
mod failing;
#[cfg(test)]
mod further;
#[cfg(test)]
mod hostile;
#[cfg(test)]
mod replays;
