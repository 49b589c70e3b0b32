//! Kinds of expressions, domains of variables, and the limits of a model.
//!
//! Each expression has a kind: truth values, the numbers of an interval, or symbols. [`check_model`] finds
//! the kinds of all variables, definitions and formulas of a flat model, or tells the first rule that is
//! broken ([`TypeFault`]); a [`Typed`] model breaks none. [`check_value`], [`check_top`] and [`kind_of`]
//! do the same for an expression that is no part of the model. [`Typed::sort_of`], [`literal`],
//! [`negative`], [`operation`] and [`joined`] tell the same node by node, for a pass of the caller's own.
//! [`cost::cost`] and [`cost::declared_cost`] are what an expression and a type cost, also before a flat model is made.
//! The classes are those of the NuSMV 2.6 manual; the intervals are this project's own, and they see to it
//! that no divisor is 0 and no number passes 32 bits.
//!
//! The files from below: `fault` (the rules), `interval` (arithmetic on intervals), `sort` and `several`
//! (one node over its parts), `judge` (a whole expression), `numbers`, `members` and `declare` (declared
//! types and their domains), `bits` and `cost` (sizes), `site` (which fault comes first), `variables`,
//! `definitions` and `conditions` (the parts of a model), `whole` and `typed` (models) and `calls` (single
//! expressions). An expression that breaks a rule has a class and no interval, so that each rule is told
//! where it is broken and not at what stands around it.
//!
//! What is answered is what `smv_type_laws` defines, over `model_tree` and `flat_tree` of `smv_language`: a typed
//! model meets `IsTyped`, a fault `IsFault`, and an expression is judged as by `judged_in`.
//!
//! ```text
//! // MODULE main VAR x : 0..3; ASSIGN next(x) := 5 / x;
//! check_model(alloc, model)    // MayDivideByZero, at the assignment's item
//! ```
#![tactic(auto)]

mod bits;
mod calls;
mod conditions;
pub mod cost;
mod declare;
mod definitions;
mod fault;
mod interval;
mod judge;
mod members;
mod numbers;
mod several;
mod site;
mod sort;
mod typed;
mod variables;
mod whole;

pub use bits::{Ends, digits, ends_width, widened, width};
pub use calls::{Kind, check_top, check_value, kind_of};
pub use fault::{TypeFault, TypeRule};
pub use interval::Interval;
pub use numbers::TextNumbers;
pub use sort::{Class, JudgedExpr, Sort, joined, kept, literal, negative, operation};
pub use typed::{Typed, check_model};
