//! Derivations of certificates checked step by step.
//!
//! [`checker_of`] gives the checker of `sat_clauses` the clauses that a derivation starts from, [`take_step`]
//! takes a step or tells the number of the rule that it breaks first (8, 9 or 10), and [`covers_all`] tells
//! whether the clauses so far cover those that are to be shown, such as that of [`only_empty`]; [`covers_all_next`] the same of
//! clauses as they read over the state next.
//! The rules are those of `cert_laws`; `specs/Steps.antt` says them of the derivation as it stands. A step
//! costs the literals of its clause and of the clauses that it names. [`has_no_opposites`] is the test of one clause, in
//! time by its length.
//!
//! ```text
//! let mut checker = checker_of(alloc, &given, &[])?;    // over variables up to the highest of those given
//! take_step(&mut checker, &step)?                      // None: its clause comes after the others; or Some(10)
//! covers_all(&checker, &needed)                        // each needed clause has all literals of some clause
//! ```
#![tactic(auto)]

mod covering;
mod given;
mod goals;
mod marks;
mod steps;

pub use covering::{covers_all, covers_all_next};
pub use given::checker_of;
pub use goals::only_empty;
pub use marks::has_no_opposites;
pub use steps::take_step;
