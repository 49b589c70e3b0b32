//! Whether the clause of a step follows by its hints: reverse unit propagation along numbered clauses.
//!
//! [`follow`] is the main function. It makes each literal of the clause false, takes the hints in turn, and makes
//! the trail free again. A hint whose clause is unit makes one more literal true; the one whose clause is false has
//! to be the last. Any other hint is refused, by its number from 1. [`has_no_opposites`] is the test that the
//! literals can all be made false.
ghost use Rattle.std.specs.Prelude.{◌≡◌, ◌↔◌, ℕ, ◌-◌, length, replicate, Some, None, All, IsTrue, IsOk};
ghost use Rattle.std.specs.Result.{result_err, IsErrOf};
ghost use Rattle.sat_clauses.specs.Literal.{Literal};
ghost use Rattle.sat_clauses.specs.Assignment.{all_free, IsInRange, value_of};
ghost use Rattle.sat_clauses.specs.Hints.{truth_at, made_false, HasNoOpposites, LacksOpposite, EndsFalse, EndsOpen, FailsAt};
ghost use Rattle.sat_clauses.specs.Fault.{fault_of};

use crate::assign::Assign;
use crate::checker_trail::CheckerTrail;
use crate::clause::Truth;
use crate::clause_store::ClauseStore;
use crate::lit::{Lit, contains};
use crate::step::{Step, StepFault};
use crate::truth::truth_of_lits;

/// Whether the step's clause follows by its hints. The trail is free before and after. Takes no memory.
pub fn follow(trail: &mut CheckerTrail, clauses: &ClauseStore, step: &Step) -> Result<(), StepFault>
    requires free { trail.old ≡ all_free (length trail.old - 1) }
    requires list_in_range { All (All (IsInRange trail.old)) clauses.now.clauses }
    requires in_range { All (IsInRange trail.old) step.now.clause }
    requires no_opposites { HasNoOpposites step.now.clause }
    ensures same { trail.new ≡ trail.old }

    ensures accepted { IsOk result
        ↔ EndsFalse clauses.now.clauses (made_false trail.old step.now.clause) step.now.hints }
    ensures bad_hint { (i : ℕ) → IsErrOf result (StepFault.BadHint i)
        ↔ FailsAt clauses.now.clauses (made_false trail.old step.now.clause) step.now.hints i }
    ensures no_conflict { IsErrOf result StepFault.NoConflict
        ↔ EndsOpen clauses.now.clauses (made_false trail.old step.now.clause) step.now.hints }
{
    assume_false(trail, step.clause.lits());
    let outcome = use_hints(trail, clauses, step.hints.as_slice());
    trail.undo();
    outcome
}

// Takes the hints in turn, with the clause false already. The definition `fault_of` computes the same
// outcome, and laws tie it to the relations on hints.
fn use_hints(
    trail: &mut CheckerTrail,
    clauses: &ClauseStore,
    hints: &[u64],
) -> Result<(), StepFault>
    requires { All (All (IsInRange trail.old)) clauses.now.clauses }
    ensures fault { result_err result ≡ fault_of clauses.now.clauses trail.old 1 hints.now }
    ensures same_vars { length trail.new ≡ length trail.old }
{
    for (i, hint) in hints.iter().enumerate() {
        let number = i as u64 + 1;
        let Some(truth) = truth_at(clauses, trail.assign(), *hint) else {
            return Err(StepFault::BadHint(number));
        };
        match truth {
            Truth::Unit(lit) => trail.set(lit),
            Truth::False if i + 1 == hints.len() => return Ok(()),
            Truth::False => return Err(StepFault::BadHint(number + 1)),
            Truth::True | Truth::Unknown => return Err(StepFault::BadHint(number)),
        }
    }
    Err(StepFault::NoConflict)
}

// What the clause of this number is at its turn, or `None` where there is no such clause.
fn truth_at(clauses: &ClauseStore, assign: &Assign, hint: u64) -> Option<Truth>
    requires { All (All (IsInRange assign.now)) clauses.now.clauses }
    ensures value { result ≡ truth_at clauses.now.clauses assign.now hint }
    ensures unit_is_free { (l : Literal) → result ≡ Some (Truth.Unit l) → value_of assign.now l ≡ None }
    ensures unit_in_range { (l : Literal) → result ≡ Some (Truth.Unit l) → IsInRange assign.now l }
{
    if hint == 0 || hint as usize > clauses.len() {
        return None;
    }
    Some(truth_of_lits(clauses.lits(hint as usize - 1), assign))
}

// Makes each literal of a clause false. One that is written twice has a value the second time.
fn assume_false(trail: &mut CheckerTrail, lits: &[Lit])
    requires in_range { All (IsInRange trail.old) lits.now }
    requires free { trail.old ≡ replicate (length trail.old) None }
    requires no_opposites { HasNoOpposites lits.now }
    ensures { trail.new ≡ made_false trail.old lits.now }
{
    for lit in lits {
        if trail.assign().value(*lit).is_none() {
            trail.set(lit.neg());
        }
    }
}

/// Whether no literal has its opposite among them. Compares each with each.
pub fn has_no_opposites(lits: &[Lit]) -> bool
    ensures { IsTrue result ↔ HasNoOpposites lits.now }
{
    for lit in lits {
        if !lacks_opposite(lits, *lit) {
            return false;
        }
    }
    true
}

// Whether the opposite of a literal is not among these.
fn lacks_opposite(lits: &[Lit], lit: Lit) -> bool
    ensures { IsTrue result ↔ LacksOpposite lits.now lit }
{
    !contains(lits, lit.neg())
}
