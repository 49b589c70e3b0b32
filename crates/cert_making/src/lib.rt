//! How the derivations of a certificate are made by a search.
//!
//! For each clause that a derivation is to show, the search is asked over the given clauses and the steps so far, with the given
//! clauses' highest variable, the opposites of the clause's literals up to that variable. Of a clause that follows it finds no assignment, and the steps
//! that its recorder has kept go on (`specs/Queries.antt`). [`derive::derive`] does so for each goal of a part in turn, of one search
//! to which the clauses given were added and which learns those of the steps, and [`parts::derive_parts`] for the three parts of an
//! invariant. [`needed::needed`] tells first which clauses of an invariant a proof needs.
//!
//! ```text
//! // given [1] [-4 2 -1] [-4 -2 1] [4 -2 -1] [4 2 1] [-4], to show [-2]: 2 is assumed, and the step is -2 : 1 6 4
//! ```
#![tactic(auto)]

pub mod derive;
pub mod needed;
pub mod parts;

ghost use Rattle.cert_making.specs.Queries.{QueriesDerive, AllCoveredIsDerived};

/// Each query may be asked and has the verdict that its goal follows, with steps that go on; with all goals the part is derived.
pub fn queries_derive()
    ensures each { QueriesDerive }
    ensures all { AllCoveredIsDerived }
{}
