//! A program's flat model, before it is made.
//!
//! What a model costs is counted from the tables of its program (`smv_scope`), by the costs of expressions and types
//! (`smv_types`): each module once, and then each instance by its module. A program of which more is counted than the limit
//! has no model that keeps it (`counted_by_items` of `smv_type_laws`), so the layer above can know that before any formula
//! is made. `specs/ModuleCosts.antt` has the sums as the code takes them.
//!
//! ```text
//! // MODULE main VAR a : M; b : M;  MODULE M VAR n : 0..7; INIT n > 0;
//! // least_cost: each of a and b costs 3 for the range and 3 for the condition, so 12
//! ```
#![tactic(auto)]

mod count;

pub use count::least_cost;
