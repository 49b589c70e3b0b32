//! What a search needs of a model with history and its clause lists.
ghost use Rattle.std.specs.Prelude.{◌≡◌, ◌<◌, ◌^◌, IfOk, All, length};
ghost use Rattle.smv_language.specs.Trace.{Each};
ghost use Rattle.cut_frames.specs.Condition.{IsFit, IsOverNow};
ghost use Rattle.sat_encoding_laws.specs.FlatTraces.{IsNumbered};
ghost use Rattle.cut_search_laws.specs.Problem.{Problem};
ghost use Rattle.cut_search_laws.specs.FlatSearch.{IsSearched, IsBadFor, AreHistory, IsClauseOf};
ghost use Rattle.cut_search.specs.Progress.{IsReadable, IsReadOf};

use crate::sets::SetList;
use base_values::{OutOfMemory, Valuation};
use sat_clauses::System;
use sat_clauses::assign::Assign;
use sat_clauses::clause::{Clause, ClauseList};
use sat_clauses::lit::Lit;
use std::alloc::Global;

/// A model, its faults and a top event that can be searched, with the clause lists of the model with history.
pub trait Encoded {
    /// The model without history, its faults and the top event, with the clause lists and the bits of the model with history.
    ghost problem: { Self → Problem };

    /// The clause lists of the model with history.
    fn encode(&self, alloc: Global) -> Result<System, OutOfMemory>
        ensures system { IfOk result (λ s. s ≡ (problem self.now).system) }
        ensures fit { IfOk result IsFit };

    /// That the clause lists mean the model: a law, carried as a call that does nothing.
    fn is_searched(&self)
        ensures { IsSearched (problem self.now) };

    /// The list bad of these sets and this size.
    fn bad_clauses(
        &self,
        alloc: Global,
        listed: &SetList,
        size: u32,
    ) -> Result<ClauseList, OutOfMemory>
        requires { Each (IsNumbered (length (problem self.now).modes)) listed.now }
        ensures over_now { IfOk result (λ bad. All (All (IsOverNow (problem self.now).system)) bad) }
        ensures bad { IfOk result (λ bad. IsBadFor (problem self.now) size listed.now bad) };

    /// The literals of the history bits of a state now, in the order of the faults: each is true where its fault has failed.
    fn history(&self) -> &[Lit]
        ensures { AreHistory (problem self.now) result.now };

    /// The clause of a set: it is true where some fault of the set has not failed.
    fn set_clause(&self, alloc: Global, set: &[u32]) -> Result<Clause, OutOfMemory>
        requires { IsNumbered (length (problem self.now).modes) set.now }
        ensures { IfOk result (IsClauseOf (problem self.now) set.now) };

    /// The valuation of a moment of a path. The last moment gives no inputs: they get the least values of their
    /// domains.
    fn valuation_of(
        &self,
        alloc: Global,
        moment: &Assign,
        last: bool,
    ) -> Result<Valuation, OutOfMemory>
        requires { IsReadable (problem self.now) last moment.now }
        ensures { IfOk result (λ v. IsReadOf (problem self.now) last moment.now v) };

    /// The number of the model's own variables; history bits follow.
    fn variables(&self) -> usize
        ensures { result ≡ length (problem self.now).model.variables };

    /// The number of faults.
    fn faults(&self) -> usize
        ensures count { result ≡ length (problem self.now).modes }
        ensures few { result < 2 ^ 24 };
}
