//! What a clause is under an assignment: the four answers by which unit propagation goes.
//!
//! [`truth`] is the main function, and [`truth_of_lits`] the same of a slice of literals. Both go through the
//! literals up to three times: for a true one, for the first free one, and for one that is neither false nor that
//! one.
ghost use Rattle.std.specs.Prelude.{◌≡◌, ◌↔◌, ◌||◌, not, true, false, Some, All, Any, find};
ghost use Rattle.std.specs.List.{list_any, list_all};
ghost use Rattle.sat_clauses.specs.Literal.{Literal};
ghost use Rattle.sat_clauses.specs.Assignment.{IsInRange, value_of, is_true_in, is_free_in};
ghost use Rattle.sat_clauses.specs.Truth.{truth_of, is_same, IsUnit};

use crate::assign::Assign;
use crate::clause::{Clause, Truth};
use crate::lit::Lit;

/// What a clause is under an assignment, by which unit propagation goes: `True` where some literal is
/// true, `False` where all are false, `Unit(l)` where l is the one literal, maybe written more than
/// once, that is still free, and `Unknown` otherwise. Takes no memory.
pub fn truth(clause: &Clause, assign: &Assign) -> Truth
    requires { All (IsInRange assign.now) clause.now }
    ensures value { result ≡ truth_of assign.now clause.now }

    ensures true_where { (result ≡ Truth.True) ↔ Any (λ l. value_of assign.now l ≡ Some true) clause.now }
    ensures false_where { (result ≡ Truth.False) ↔ All (λ l. value_of assign.now l ≡ Some false) clause.now }
    ensures unit_where { (l : Literal) → (result ≡ Truth.Unit l) ↔ IsUnit assign.now clause.now l }
{
    truth_of_lits(clause.lits(), assign)
}

/// [`truth`] of the clause of these literals, for one that lies in a list of its own kind.
pub fn truth_of_lits(lits: &[Lit], assign: &Assign) -> Truth
    requires { All (IsInRange assign.now) lits.now }
    ensures value { result ≡ truth_of assign.now lits.now }

    ensures true_where { (result ≡ Truth.True) ↔ Any (λ l. value_of assign.now l ≡ Some true) lits.now }
    ensures false_where { (result ≡ Truth.False) ↔ All (λ l. value_of assign.now l ≡ Some false) lits.now }
    ensures unit_where { (l : Literal) → (result ≡ Truth.Unit l) ↔ IsUnit assign.now lits.now l }
{
    judge(lits, assign)
}

// The laws of `truth_of` say what it means; here only that it is what the three passes give.
fn judge(lits: &[Lit], assign: &Assign) -> Truth
    requires { All (IsInRange assign.now) lits.now }
    ensures { result ≡ truth_of assign.now lits.now }
{
    if has_true(lits, assign) {
        return Truth::True;
    }
    match first_free(lits, assign) {
        None => Truth::False,
        Some(free) if is_false_but(lits, assign, free) => Truth::Unit(free),
        Some(_) => Truth::Unknown,
    }
}

// Whether some literal is true.
fn has_true(lits: &[Lit], assign: &Assign) -> bool
    requires { All (IsInRange assign.now) lits.now }
    ensures { result ≡ list_any (is_true_in assign.now) lits.now }
{
    lits.iter().any(|lit| assign.value(*lit) == Some(true))
}

// The first literal whose variable is free.
fn first_free(lits: &[Lit], assign: &Assign) -> Option<Lit>
    requires { All (IsInRange assign.now) lits.now }
    ensures { result ≡ find (is_free_in assign.now) lits.now }
{
    lits.iter()
        .copied()
        .find(|lit| assign.value(*lit).is_none())
}

// Whether every literal but this free one is false, where none is true.
fn is_false_but(lits: &[Lit], assign: &Assign, free: Lit) -> bool
    requires { All (IsInRange assign.now) lits.now }
    ensures { result ≡ list_all (λ lit. is_same lit free || not (is_free_in assign.now lit)) lits.now }
{
    lits.iter()
        .all(|lit| *lit == free || assign.value(*lit).is_some())
}
