//! Programs as flat models: one list of variables, and formulas over them.
//!
//! A program is modules that declare instances of one another. [`flatten`] goes through all instances
//! from `main` on and makes of them one list of variables, one of definitions and three of formulas,
//! whose names are numbers (`Flat` of `smv_language`); or it tells the first of fourteen rules that the program breaks,
//! and the item that breaks it ([`FlatFault`]). A name of a formula is looked up once, here: the layers
//! above never see a dotted name or an instance's parameters. [`resolve_top`] and [`resolve_at`] do the
//! same for an expression that is not part of the program, and a [`Scope`] keeps the tables for many of them.
//!
//! The tables of instances, names and definitions are made below, in `smv_scope`. Here stand `judge` with
//! `values` (all other rules) and `build` with `clauses` and `resolve`. Each pass is linear in what it reads or makes.
//!
//! ```text
//! // MODULE main VAR on : boolean; ASSIGN next(on) := !on;
//! let model = flatten(alloc, &program)?;
//! model.trans.at(0).value    // next(Var(0)) in !Var(0)
//! ```
#![tactic(auto)]

mod build;
mod clauses;
mod flattening;
mod history;
mod judge;
mod resolve;
mod values;

pub use flattening::{Scope, flatten, resolve_at, resolve_top};
pub use history::with_history;
pub use smv_scope::{Bounds, FlatFault, FlatRule};
