//! Tests of fault sets: rising lists of numbers, which contains which, and their order.
//!
//! A set is a slice of numbers of faults, from 1 on. What the tests answer is defined in `cut_right_laws`
//! (`specs/Sets.antt`), and what that means for members is a law of `sat_encoding_laws`. None of them takes memory.
//!
//! ```text
//! is_rising(&[1, 3])                    // true
//! is_contained(&[3], &[1, 3])           // true
//! stands_before(&[2], &[1, 3])          // true: smaller sets stand first
//! ```
#![tactic(auto)]

mod sets;

pub use sets::{are_apart, has_number, is_contained, is_rising, stands_before};
