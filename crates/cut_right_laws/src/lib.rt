//! What it means that listed fault sets are right for a class of traces.
//!
//! Sets, one trace for each and a size are right for a class where each set's trace reaches the top event and has
//! failed exactly the set, each reaching trace of the class that has failed no more faults than the size says has
//! failed all of some listed set, and no listed set contains another (`specs/Right.antt`). What a trace is, when it
//! reaches and which faults it has failed are parameters: flat traces, traces of a program and extended traces share
//! the definition. `specs/Laws.antt` has what follows: for all traces the listed sets are exactly the minimal cut sets
//! of at most so many faults, and traces that correspond are covered alike (`proofs/Carried.antt`, which the crates
//! above cite). `proofs/Examples.antt` has four traces, a list of sets that is right for them, and two that are not.
//!
//! ```text
//! // sets 1 and 2 3, size 2: a reaching trace that has failed 2 and 4 would be one too many
//! ```
#![tactic(auto)]

ghost use Rattle.cut_right_laws.specs.Laws.{RightSetsAreMinimal, RightIsCarried};

/// What traces are, which reach the top event and which faults they have failed.
pub trait Traces {
    ghost use Rattle.std.specs.Prelude.{ℕ};

    /// That it is a trace.
    ghost is_trace: { Self → Type 0 };

    /// That it reaches the top event.
    ghost reaches: { Self → Type 0 };

    /// That it has failed the fault of this number, from 1 on.
    ghost has_failed: { Self → ℕ → Type 0 };
}

/// Sets that are right for all traces are exactly the minimal cut sets of at most so many faults.
pub fn right_sets_are_minimal<T: Traces>()
    ensures { RightSetsAreMinimal T T.is_trace T.reaches T.has_failed }
{}

/// Traces that may correspond to others, with a class of each kind.
pub trait Corresponding<U>: Traces {
    /// That a trace corresponds to one of the other kind.
    ghost related: { Self → U → Type 0 };

    /// The class of traces of this kind.
    ghost class: { Self → Type 0 };

    /// The class of those of the other kind.
    ghost other_class: { U → Type 0 };
}

/// Sets that are right for a class of traces are right for a class of traces that correspond to them.
pub fn right_is_carried<U: Traces, T: Corresponding<U>>()
    ensures { RightIsCarried T U T.is_trace T.reaches T.has_failed U.is_trace U.reaches U.has_failed T.related T.class T.other_class }
{}
