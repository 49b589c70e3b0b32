//! A literal became false: the clauses that watch it watch another one, or are found.
//!
//! [`pass`] is the main function. It takes the clauses one by one out of the list of the literal and files them
//! anew: where another literal can be watched under that one, and else in a list of those that were visited,
//! from which they come back at the end.
ghost use Rattle.std.specs.Prelude.{◌≡◌, ◌≢◌, ◌↔◌, IsTrue, ℕ, ◌+◌, ◌*◌, ◌<◌, ◌≤◌, [], ◌∷◌, ◌++◌, true, Some, All};
ghost use Rattle.std.specs.Prelude.{length, find, vec_len, vec_capacity, if◌then◌else◌};
ghost use Rattle.sat_clauses.specs.Code.{literal_of};
ghost use Rattle.sat_clauses.specs.Assignment.{IsInRange, value_of};
ghost use Rattle.sat_solver.specs.Threads.{at};
ghost use Rattle.sat_solver.specs.Pass.{is_hit, may_watch, CanVisit, CanPass, IsNewList, IsPassed};

use crate::threads::Threads;
use sat_clauses::assign::Assign;
use sat_clauses::clause_store::ClauseStore;
use sat_clauses::lit::Lit;

// The list of those that were visited.
const VISITED: u64 = 1;

// Whether the literal with this code is true, if it is one.
fn is_true(assign: &Assign, code: u64) -> bool
    requires { code < 2 * length assign.now }
    ensures { IsTrue result ↔ ((2 ≤ code) × (value_of assign.now (literal_of code) ≡ Some true)) }
{
    if code < 2 {
        return false;
    }
    assign.value(Lit::new(code / 2, code % 2 == 1)) == Some(true)
}

// A literal that may be watched beside the one with this code.
fn candidate(lits: &[Lit], assign: &Assign, other: u64) -> Option<Lit>
    requires { All (IsInRange assign.now) lits.now }
    ensures { result ≡ find (may_watch assign.now other) lits.now }
{
    lits.iter().copied().find(|lit| lit.code() != other && assign.value(*lit) != Some(false))
}

// Visits a clause that watches a literal which became false, and the literal with the other code. The answer is
// the list in which it is to be filed; its number is noted where it is false or unit.
fn visit(
    lits: &[Lit],
    assign: &Assign,
    lit: Lit,
    other: u64,
    number: u64,
    found: &mut Vec<u64>,
) -> u64
    requires in_range { All (IsInRange assign.now) lits.now }
    requires other { other < 2 * length assign.now }
    requires visit { CanVisit assign.now lits.now lit other }
    requires room { vec_len found.old < vec_capacity found.old }
    ensures list { IsNewList assign.now lits.now other 1 result }
    ensures found { found.new.items ≡ (if is_hit assign.now lits.now then found.old.items ++ number ∷ [] else found.old.items) }
    ensures few { vec_len found.new ≤ vec_len found.old + 1 }
    ensures room { vec_capacity found.old ≤ vec_capacity found.new }
{
    if is_true(assign, other) {
        return VISITED;
    }
    match candidate(lits, assign, other) {
        Some(next) => next.code(),
        None => {
            found.push(number).unwrap();
            VISITED
        }
    }
}

// Files in a list what is in the list of those that were visited.
fn put_back(mine: &mut Threads, list: u64)
    requires within { list < mine.old.lists }
    requires apart { 2 ≤ list }
    ensures lists { mine.new.lists ≡ mine.old.lists }
    ensures places { length mine.new.homes ≡ length mine.old.homes }
    ensures back { (i : ℕ) → at mine.old.homes i ≡ 1 → at mine.new.homes i ≡ list }
    ensures rest { (i : ℕ) → at mine.old.homes i ≢ 1 → at mine.new.homes i ≡ at mine.old.homes i }
{
    while let Some(number) = mine.pop(VISITED) {
        mine.push(list, number);
    }
}

/// Visits the clauses that watch a literal which became false, and says how many these were.
pub fn pass(
    mine: &mut Threads,
    other: &Threads,
    clauses: &ClauseStore,
    assign: &Assign,
    lit: Lit,
    found: &mut Vec<u64>,
) -> u64
    requires lists { 2 * length assign.now ≤ mine.old.lists }
    requires can_pass { CanPass assign.now lit clauses.now.clauses mine.old.homes other.now.homes found.old.items }
    requires room { vec_len found.old + length mine.old.homes ≤ vec_capacity found.old }
    ensures lists { mine.new.lists ≡ mine.old.lists }
    ensures passed { IsPassed assign.now lit clauses.now.clauses other.now.homes mine.old.homes mine.new.homes found.old.items
        found.new.items }
    ensures room { vec_capacity found.old ≤ vec_capacity found.new }
    ensures few { vec_len found.new ≤ vec_len found.old + length mine.old.homes }
{
    let list = lit.code();
    let mut visited = 0u64;
    while let Some(i) = mine.pop(list) {
        visited = visited.saturating_add(1);
        let home = visit(
            clauses.lits(i),
            assign,
            lit,
            other.home(i),
            i as u64 + 1,
            found,
        );
        mine.push(home, i);
    }
    put_back(mine, list);
    visited
}
