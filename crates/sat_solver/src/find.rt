//! Clauses that are unit or false.
//!
//! [`try_clause`] tries one clause. [`find`] looks at all before an answer, where every variable has a value: what
//! is neither false nor unit there is true, since a literal's variable is positive.
ghost use Rattle.std.specs.Prelude.{◌≡◌, ◌≢◌, ◌<◌, ◌≤◌, ℕ, length, take, All, Some, None, true, slice_index_or, IfSome};
ghost use Rattle.sat_clauses.specs.Assignment.{IsInRange, value_of};
ghost use Rattle.sat_clauses.specs.Truth.{truth_of};
ghost use Rattle.sat_solver.specs.ClauseFindings.{IsFound, IsUseful, IsPick};
ghost use Rattle.sat_solver.specs.Trail.{HasChoice, HasAssumed};

use crate::clauses::{len, lits};
use crate::trail::Trail;
use sat_clauses::assign::Assign;
use sat_clauses::clause::Truth;
use sat_clauses::lit::Lit;
use sat_clauses::store::Store;
use sat_clauses::truth::truth_of_lits;

/// A clause that is false or unit, if one was found.
#[derive(Clone, Copy)]
pub enum FoundClause {
    /// The clause of this number is false.
    Conflict(u64),
    /// The clause of this number is unit.
    Next(u64, Lit),
    /// Neither.
    Nothing,
}

/// Whether the clause of this number is false or unit.
pub fn try_clause<S: Store>(clauses: &S, assign: &Assign, number: u64) -> FoundClause
    requires { All (All (IsInRange assign.now)) (S.held clauses.now).clauses }
    ensures { IsUseful (S.held clauses.now).clauses assign.now result }
{
    if number == 0 || number as usize > len(clauses) {
        return FoundClause::Nothing;
    }
    match truth_of_lits(lits(clauses, number as usize - 1), assign) {
        Truth::False => FoundClause::Conflict(number),
        Truth::Unit(lit) => FoundClause::Next(number, lit),
        _ => FoundClause::Nothing,
    }
}

// Sees that the variables of literals are positive.
fn see_positive(lits: &[Lit])
    ensures { All (λ l. 1 ≤ l.var) lits.now }
{
    for lit in lits {
        // (what `var` says)
        let _var = lit.var();
    }
}

// What a clause is where every variable has a value.
fn decided(lits: &[Lit], assign: &Assign) -> Truth
    requires in_range { All (IsInRange assign.now) lits.now }
    requires taken { (x : ℕ) → 0 < x → x < length assign.now → slice_index_or assign.now x None ≢ None }
    ensures value { result ≡ truth_of assign.now lits.now }
    ensures known { result ≢ Truth.Unknown }
{
    let truth = truth_of_lits(lits, assign);
    if let Truth::Unknown = truth {
        see_positive(lits);
        unreachable!();
    }
    truth
}

/// The first clause that is false or unit, where every variable has a value; where there is none, all are true.
pub fn find<S: Store>(clauses: &S, assign: &Assign) -> FoundClause
    requires in_range { All (All (IsInRange assign.now)) (S.held clauses.now).clauses }
    requires taken { (x : ℕ) → 0 < x → x < length assign.now → slice_index_or assign.now x None ≢ None }
    ensures { IsFound (S.held clauses.now).clauses assign.now result }
{
    let mut i = 0;
    while i < len(clauses) {
        match decided(lits(clauses, i), assign) {
            Truth::False => return FoundClause::Conflict(i as u64 + 1),
            Truth::Unit(lit) => return FoundClause::Next(i as u64 + 1, lit),
            _ => {}
        }
        i += 1;
    }
    FoundClause::Nothing
}

/// What is to be made true where no clause is unit.
#[derive(Clone, Copy)]
pub enum Pick {
    /// An assumption that is free, where so many of the first ones are true.
    Assume(Lit, usize),
    /// An assumption that is false.
    Refuted(Lit),
    /// A free variable, of which there is one.
    Choose,
    /// All assumptions are true, and no variable is free.
    Done,
}

/// What is to be made true next. Where a free choice stands, the assumptions were true when it was made, and are not looked
/// at again; nor are those that were true when the last assumption was made true.
pub fn next_pick(trail: &mut Trail, assumptions: &[Lit]) -> Pick
    requires in_range { All (IsInRange trail.old.values) assumptions.now }
    requires assumed { HasChoice trail.old → All (λ p. value_of trail.old.values p ≡ Some true) assumptions.now }
    requires in_turn { (count : ℕ) → HasAssumed trail.old count →
        All (λ p. value_of trail.old.values p ≡ Some true) (take count assumptions.now) }
    ensures same { trail.new ≡ trail.old }
    ensures pick { IsPick trail.old.values assumptions.now result }
{
    if trail.has_choice() {
        return free_pick(trail, assumptions);
    }
    let known = trail.known_assumptions();
    match open_assumption(trail.assign(), assumptions, known) {
        Some(pick) => pick,
        None => free_pick(trail, assumptions),
    }
}

/// The first assumption that is not true, where so many of the first ones are known to be.
fn open_assumption(assign: &Assign, assumptions: &[Lit], known: usize) -> Option<Pick>
    requires in_range { All (IsInRange assign.now) assumptions.now }
    requires known { All (λ p. value_of assign.now p ≡ Some true) (take known assumptions.now) }
    ensures some { IfSome result (IsPick assign.now assumptions.now) }
    ensures none { result ≡ None → All (λ p. value_of assign.now p ≡ Some true) assumptions.now }
{
    let mut place = known;
    while place < assumptions.len() {
        let assumption = assumptions[place];
        match assign.value(assumption) {
            None => return Some(Pick::Assume(assumption, place)),
            Some(false) => return Some(Pick::Refuted(assumption)),
            Some(true) => {}
        }
        place += 1;
    }
    None
}

/// Whether a variable is free, where all assumptions are true.
fn free_pick(trail: &mut Trail, assumptions: &[Lit]) -> Pick
    requires { All (λ p. value_of trail.old.values p ≡ Some true) assumptions.now }
    ensures same { trail.new ≡ trail.old }
    ensures pick { IsPick trail.old.values assumptions.now result }
{
    match trail.first_free() {
        Some(_) => Pick::Choose,
        None => Pick::Done,
    }
}
