//! The clause lists that say what a model's first states and steps are.
//!
//! A [`System`] has the bits of a state and the clauses over them. Variable 1 is true everywhere. With b
//! state bits and u input bits, the state now has the variables 2 to b + 1, the state next b + 2 to
//! 2b + 1, and the inputs 2b + 2 to 2b + u + 1; all further variables are those of gates. [`encode`]
//! makes the lists of a model's first states and steps, and [`bad_clauses`] that of its bad states; who needs one list at a time
//! has the first states from [`first_gates`], the steps from [`step_gates`] and all states from [`state_gates`]. A search that lists one
//! set more adds its [`unlisted_clause`], over the [`history_literals`]. [`bits_of`] sets the bits of a valuation, and [`valuation_of`] and
//! [`state_of`] read one. What the lists are, gate by gate, and what they mean stands in `sat_encoding_laws`; the passes here build them in
//! one go over each formula, and each gate only appends its clauses.
//!
//! The files from below: `layout` (which variables are whose bits), `inputs` (what reads an input),
//! `domains` (domains as gates), `lists` and `bad` (the lists), `bits` (values of bits) and `setting` (bits of
//! values). What contracts cite stands in `specs/`: `Domains` (what a domain tells of a variable), `Reading`
//! (what reads an input, node by node), `Copies` (what passes build), `History` (which variables are history
//! bits) and `Values` (values beside those of the definitions, and their bits).
//!
//! ```text
//! // VAR x : boolean; INIT x in FALSE: bit x is variable 2 now and 3 next, and gates begin at 4
//! encode(alloc, &t)?.first    // [1] [-4 2 -1] [-4 -2 1] [4 -2 -1] [4 2 1] [-4]
//! ```
#![tactic(auto)]

ghost use Rattle.sat_encoding.specs.History.{HistoryIsLast};

mod bad;
mod bits;
mod domains;
mod inputs;
mod layout;
mod lists;
mod setting;

pub use bad::{bad_clauses, history_literals, unlisted_clause};
pub use bits::{state_of, valuation_of};
pub use lists::{encode, first_gates, state_gates, step_gates};
pub use sat_clauses::System;
pub use setting::bits_of;

/// The bits of a model's history are its last variables.
pub fn history_is_last()
    ensures { HistoryIsLast }
{}
