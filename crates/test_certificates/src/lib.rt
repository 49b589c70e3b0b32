//! Tests of certificates, over public calls alone.
//!
//! The crate has no code of its own. `certificates` has the texts: what is read is written as the same bytes, and
//! other texts are refused at their line. A table says which case failed.
#![tactic(auto)]

#[cfg(test)]
mod certificates;
