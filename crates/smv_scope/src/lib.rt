//! The tables of a program: its modules, instances, names and definitions.
//!
//! A program is modules that declare instances of one another. Here it is gone through once, from `main`
//! on: which module a name is, which items and names a module has, which instances there are with their
//! variables, what a name means at an instance, and which definitions an expression needs. The rules of
//! modules and of the walk are tried on the way, and the first that is broken is told ([`FlatFault`]).
//! The layer above judges all other rules and builds the flat model (of `smv_language`) from these tables,
//! which contracts see by `specs/SceneTree.antt` (a [`names::Scene`]: what stands in each table) and
//! `specs/NeedsTree.antt` (which definitions lie on a circle or read an input).
//!
//! The passes stand one to a file, in this order: `modules`, `walk`, `symbols`, `names`, `formals` and
//! `needs`, which stands on `links` (the graph of the definitions) and `circles`. `likes` has which instances repeat
//! an earlier one, so that the layer above need not judge them again. Each is linear in what it reads
//! or makes.
//!
//! ```text
//! // MODULE main VAR a : M(on); on : boolean;  MODULE M(p) DEFINE q := !p;
//! // instances: main, a; at a the formal p means the variable `on` of main, and q is a definition
//! ```
#![tactic(auto)]

pub mod bounds;
mod circles;
pub mod fault;
pub mod formals;
pub mod items;
pub mod likes;
mod links;
pub mod modules;
pub mod names;
pub mod needs;
pub mod symbols;
pub mod uses;
pub mod walk;

pub use bounds::Bounds;
pub use fault::{FlatFault, FlatRule};
