//! Values of a typed model's expressions, and the replay of traces.
//!
//! A [`Table`] has a value for each variable and each definition of a model at one moment. [`fill`] gives it
//! the values of a valuation and evaluates the definitions once each, in their order; [`value`] and [`may`]
//! then give the value of an expression, or whether it may have a given one, from the table of a moment and
//! that of the next. [`holds_first`] and [`holds_step`] are the conditions on a first moment and on a step.
//! [`replay`] goes over a list of moments and tells whether they are a trace that reaches a top event, or
//! where and why they stop being one ([`Replayed`]). [`has_failed`] tells whether a fault's mode stood.
//! The meaning is that of the NuSMV 2.6 manual: `/` truncates toward zero, and `mod` has the sign of what is
//! divided.
//!
//! The files from below: `operate` (one operator on values), `ask` (a whole expression), `table`, `values`
//! and `conditions` (expressions and conditions of a typed model), `trace` and `failed`. One pass over an
//! expression answers both questions, its value and whether it may have one. Nothing here takes memory but
//! [`Table::for_model`].
//!
//! What is answered is what `smv_flat_laws` and `sat_encoding_laws` define over `model_tree` and `flat_tree`:
//! `specs/Evaluation.antt` and `Filled.antt` say what the code computes, `Named.antt` reads values by the names of
//! symbols, and `Stops.antt` says where and why moments are no trace that reaches.
//!
//! ```text
//! fill(&t, &first, &mut now);
//! value(&t, &quotient, &now, &now)    // -7 / 2 is Num(-3), -7 mod 2 is Num(-1)
//! ```
#![tactic(auto)]

mod ask;
mod conditions;
mod failed;
mod laws;
mod operate;
mod table;
mod trace;
mod values;

pub use conditions::{holds_first, holds_step};
pub use failed::has_failed;
pub use laws::{flat_models_are_evaluable, one_stop};
pub use table::{Table, fill};
pub use trace::{Replayed, replay};
pub use values::{may, value};
