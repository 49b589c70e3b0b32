//! The checker of derivations: clauses by number, to which a step adds one where it follows by its hints.
//!
//! [`Checker::step`] is the main call. It goes by reverse unit propagation: the literals of the step's clause are
//! made false, each hint's clause makes its one remaining literal true in turn, and the last one is false
//! ([`crate::hints`] does this). The clauses lie in [`crate::clause_store`] and the assignment in
//! [`crate::checker_trail`]. What it accepts is true in every model of the clauses before it, whatever made the
//! step.
ghost use Rattle.std.specs.Prelude.{◌≡◌, ◌↔◌, ℕ, ◌^◌, ◌<◌, ◌≤◌, [], ◌∷◌, ◌++◌, length, All, IsTrue, Some, IsOk, IfOk, OnOk, OnErr};
ghost use Rattle.std.specs.Result.{IsErrOf};
ghost use Rattle.sat_clauses.specs.Models.{FollowsFrom};
ghost use Rattle.sat_clauses.specs.Derivation.{IsUpTo, Appends};
ghost use Rattle.sat_clauses.specs.CanTake.{CanTake};
ghost use Rattle.sat_clauses.specs.Hints.{clause_at, EndsFalse, EndsOpen, FailsAt, assumed_false};

use crate::checker_trail::CheckerTrail;
use crate::clause::Clause;
use crate::clause_store::ClauseStore;
use crate::hints::{follow, has_no_opposites};
use crate::lit::{Lit, are_up_to};
use crate::step::{Step, StepFault};
use base_values::OutOfMemory;
use std::alloc::Global;
use std::marker::Model;

/// A list of clauses, numbered from 1, to which given clauses and derivation steps add.
#[derive(Drop)]
pub struct Checker {
    clauses: ClauseStore,
    trail: CheckerTrail,
}

impl Model for Checker {
    ghost use Rattle.sat_clauses.specs.Derivation.{Derivation};

    ghost Value = { Derivation };

    ghost use Rattle.sat_clauses.specs.Checker.{derivation_of, IsSound};

    ghost view = { derivation_of };

    ghost invariant = { IsSound };
}

impl Checker {
    /// A checker of clauses over the variables up to `vars` that has no clause yet.
    pub fn new(alloc: Global, vars: u64) -> Result<Checker, OutOfMemory>
        requires { vars < 2 ^ 62 }
        ensures vars { IfOk result (λ checker. checker.vars ≡ vars) }
        ensures clauses { IfOk result (λ checker. checker.clauses ≡ []) }
    {
        Ok(Checker {
            clauses: ClauseStore::new(alloc),
            trail: CheckerTrail::with_vars(alloc, vars)?,
        })
    }

    /// Appends a given clause into new memory. The room for steps stays. Where there is no memory
    /// nothing has changed.
    pub fn add_given(&mut self, clause: &Clause) -> Result<(), OutOfMemory>
        requires { All (IsUpTo self.old.vars) clause.now }
        ensures ok { OnOk result (self.new ≡ record self.old { clauses = self.old.clauses ++ clause.now ∷ [] }) }
        ensures err { OnErr result (self.new ≡ self.old) }
    {
        self.clauses.push(clause.lits())
    }

    /// Makes room for so many steps, with so many literals in all their clauses. Where there is no
    /// memory nothing has changed.
    pub fn reserve(&mut self, clauses: usize, lits: usize) -> Result<(), OutOfMemory>
        ensures vars { self.new.vars ≡ self.old.vars }
        ensures clauses { self.new.clauses ≡ self.old.clauses }
        ensures spare_clauses { OnOk result (clauses ≤ self.new.spare_clauses) }
        ensures spare_lits { OnOk result (lits ≤ self.new.spare_lits) }
        ensures more_clauses { self.old.spare_clauses ≤ self.new.spare_clauses }
        ensures more_lits { self.old.spare_lits ≤ self.new.spare_lits }
        ensures err { OnErr result (self.new ≡ self.old) }
    {
        self.clauses.reserve(clauses, lits)
    }

    /// The highest variable.
    pub fn vars(&self) -> u64
        ensures { result ≡ self.now.vars }
    {
        self.trail.assign().vars()
    }

    /// The number of clauses, given and accepted.
    pub fn len(&self) -> usize
        ensures { result ≡ length self.now.clauses }
    {
        self.clauses.len()
    }

    /// Whether there is no clause.
    pub fn is_empty(&self) -> bool
        ensures { IsTrue result ↔ (length self.now.clauses ≡ 0) }
    {
        self.clauses.len() == 0
    }

    /// The literals of the clause of this number, counted from 1.
    pub fn clause(&self, number: usize) -> &[Lit]
        requires positive { 1 ≤ number }
        requires within { number ≤ length self.now.clauses }
        ensures { clause_at self.now.clauses number ≡ Some result.now }
    {
        self.clauses.lits(number - 1)
    }

    /// The condition of `step` as a test: there is room for the clause, its variables are at most the
    /// highest, and no literal has its opposite there.
    pub fn can_take(&self, clause: &Clause) -> bool
        ensures { IsTrue result ↔ CanTake self.now clause.now }
    {
        let lits = clause.lits();
        if !self.clauses.has_room_for(lits.len()) || !are_up_to(lits, self.vars()) {
            return false;
        }
        has_no_opposites(lits)
    }

    /// Appends the clause of a step exactly where it follows by reverse unit propagation along the hints.
    /// After a refusal the clauses and the room are as before. Takes no memory.
    pub fn step(&mut self, step: &Step) -> Result<(), StepFault>
        requires { CanTake self.old step.now.clause }

        ensures ok { OnOk result (Appends self.old step.now.clause self.new) }
        ensures err { OnErr result (self.new ≡ self.old) }

        // The clause is taken exactly where it follows by the hints.
        ensures accepted { IsOk result
            ↔ EndsFalse self.old.clauses (assumed_false self.old.vars step.now.clause) step.now.hints }
        ensures bad_hint { (i : ℕ) → IsErrOf result (StepFault.BadHint i)
            ↔ FailsAt self.old.clauses (assumed_false self.old.vars step.now.clause) step.now.hints i }
        ensures no_conflict { IsErrOf result StepFault.NoConflict
            ↔ EndsOpen self.old.clauses (assumed_false self.old.vars step.now.clause) step.now.hints }

        // A clause that is taken is true in every model of those before it.
        ensures keeps_models { OnOk result (FollowsFrom self.old.clauses step.now.clause) }
    {
        let outcome = follow(&mut self.trail, &self.clauses, step);
        if outcome.is_ok() {
            self.clauses.push_reserved(step.clause.lits());
        }
        outcome
    }
}
