//! Bounds on the probabilities of fault sets.
//!
//! A mark is a probability in units of 10^-18 (`specs/Units.antt`). [`marks`] reads the marks of modes as the
//! units of faults, or finds the first mode whose mark is none (`Marks`). The [`bound`] of a set is the product of the
//! units of its faults, each time divided by 10^18 and rounded up (`Bounds`), and [`print_odds`] gives the lines
//! of bounds and of their sum (`OddsText`). `Laws` has the theorems, which [`bounds_are_right`] carries: a bound is
//! never below the exact product and above it by at most one unit for each factor but the first, and likewise the
//! sum. `FirstMark` is what the code computes, and `proofs/` that it means `Marks`.
//!
//! ```text
//! // marks 0.1 and 0.25: the bound of both is 0.025000000000000000
//! ```
#![tactic(auto)]

ghost use Rattle.fault_odds.specs.Laws.{ProductsAreBounded, SumsAreBounded, SumsAreSmall};

mod mode_marks;
mod odds;
mod print;
mod units;

pub use mode_marks::{MarkFault, OddsFault, marks};
pub use odds::{OddsList, bound};
pub use print::print_odds;

/// The product of probabilities, rounded up in order, bounds the exact product, and the sum of such bounds is above the
/// sum of the exact products by at most the stated units.
pub fn bounds_are_right()
    ensures products { ProductsAreBounded }
    ensures sums { SumsAreBounded }
    ensures small { SumsAreSmall }
{}
