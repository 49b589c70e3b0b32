//! Answers before every variable has a value.
//!
//! A search that is kept over many questions holds clauses of which most say nothing of the one that is asked: they
//! are true because of a guard that is free. So before a free choice is made, [`complete`] sees whether all clauses are true
//! once each free variable is false. The clause at which it stopped last is looked at first, so that mostly one clause
//! is looked at for each choice, and all of them once for each answer.
ghost use Rattle.std.specs.Prelude.{◌≡◌, ◌≤◌, None, length, All, IsTrue, IfOk, IfSome};
ghost use Rattle.sat_clauses.specs.Assignment.{IsInRange};
ghost use Rattle.sat_solver.specs.Trail.{IsLeast};
ghost use Rattle.sat_solver.specs.Complete.{IsFilled, IsCompletion, WouldBeTrue, WouldHold, WouldHoldBetween};

use crate::clauses::{len, lits};
use crate::trail::Trail;
use base_values::OutOfMemory;
use sat_clauses::assign::Assign;
use sat_clauses::lit::Lit;
use sat_clauses::store::Store;

// Whether a literal is true once each free variable is false.
fn would_be_true(lit: Lit, assign: &Assign) -> bool
    requires { IsInRange assign.now lit }
    ensures { IsTrue result → WouldBeTrue assign.now lit }
{
    // (that its variable is a positive number is what `var` says)
    let _var = lit.var();
    assign.value(lit).unwrap_or(lit.is_negated())
}

// Whether a clause is true once each free variable is false.
fn holds(lits: &[Lit], assign: &Assign) -> bool
    requires { All (IsInRange assign.now) lits.now }
    ensures { IsTrue result → WouldHold assign.now lits.now }
{
    for lit in lits {
        if would_be_true(*lit, assign) {
            return true;
        }
    }
    false
}

// The place of the first clause from one place up to another that is not true once each free variable is false.
fn first_open<S: Store>(clauses: &S, assign: &Assign, from: usize, to: usize) -> Option<usize>
    requires in_range { All (All (IsInRange assign.now)) (S.held clauses.now).clauses }
    requires within { to ≤ length (S.held clauses.now).clauses }
    ensures { result ≡ None → WouldHoldBetween assign.now (S.held clauses.now).clauses from to }
{
    let mut i = from;
    while i < to {
        if !holds(lits(clauses, i), assign) {
            return Some(i);
        }
        i += 1;
    }
    None
}

// Whether all clauses are true once each free variable is false.
fn would_hold<S: Store>(clauses: &S, trail: &mut Trail, open: usize) -> bool
    requires { All (All (IsInRange trail.old.values)) (S.held clauses.now).clauses }
    ensures same { trail.new ≡ trail.old }
    ensures hold { IsTrue result → All (WouldHold trail.old.values) (S.held clauses.now).clauses }
{
    let count = len(clauses);
    let from = open.min(count);
    if let Some(at) = first_open(clauses, trail.assign(), from, count) {
        trail.note_open(at);
        return false;
    }
    match first_open(clauses, trail.assign(), 0, from) {
        Some(at) => {
            trail.note_open(at);
            false
        }
        None => {
            trail.note_open(0);
            true
        }
    }
}

// The assignment with each free variable false, where no variable below one is free.
fn filled(assign: &Assign, least: u64) -> Result<Assign, OutOfMemory>
    requires { IsLeast assign.now least }
    ensures { IfOk result (IsFilled assign.now) }
{
    let vars = assign.vars();
    let mut all = assign.copy()?;
    let mut var = least;
    while var <= vars {
        let lit = Lit::new(var, true);
        if all.value(lit).is_none() {
            all.set(lit);
        }
        var += 1;
    }
    Ok(all)
}

/// The assignment that makes each free variable false, where all clauses are true under it and the trail asks for such answers.
pub fn complete<S: Store>(clauses: &S, trail: &mut Trail) -> Result<Option<Assign>, OutOfMemory>
    requires { All (All (IsInRange trail.old.values)) (S.held clauses.now).clauses }
    ensures same { trail.new ≡ trail.old }
    ensures answer { IfOk result (λ found. IfSome found (IsCompletion (S.held clauses.now).clauses trail.old.values)) }
{
    let Some(open) = trail.open() else {
        return Ok(None);
    };
    if !would_hold(clauses, trail, open) {
        return Ok(None);
    }
    let all = filled(trail.assign(), trail.least())?;
    Ok(Some(all))
}
