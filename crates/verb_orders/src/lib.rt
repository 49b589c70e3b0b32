//! The verbs `orders` and `check-orders`: in which order two faults of a set come, over any desk.
//!
//! [`orders::find_orders`] reads a model and instructions, and searches the model that is staged for two faults of a set, first
//! for a trace that reaches the top event with exactly the set and then for one that speaks against what the first shows;
//! [`claims::check_orders`] judges a certificate of such a claim. The files stand in the order of the work: `pair` (what is
//! loaded), `searched` (a search of the staged model), `verdict` (what traces show and what is said), `orders` and `claims`.
//! The staged model and what speaks against a claim are made by `fault_orders`.
//!
//! ```text
//! orders --model pair.smv --faults pair.fei --top 'a & b' --set '1 2' --first 1 --second 2 --depth 200 --cert pair.cert
//! ```
#![tactic(auto)]

pub mod claims;
pub mod orders;
pub mod pair;
pub mod searched;
pub mod verdict;
