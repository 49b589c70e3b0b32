//! Whether the clauses of a derivation cover those that are to be shown: rule 11.
//!
//! [`covers_all`] looks for a clause that covers, for each needed one, from the place on where it found the one before: a
//! derivation that comes to the needed clauses in their order, and one whose needed clauses are equal, is gone through once.
//! Otherwise all clauses are looked through, each up to the first literal that is not needed. [`covers_all_next`] looks for the needed
//! clauses over the bits of the state next.
ghost use Rattle.std.specs.Prelude.{◌≡◌, ◌↔◌, ◌+◌, ◌<◌, ◌≤◌, false, IsTrue, IfOk, IfSome, Some, None, All, Contains, length, fold};
ghost use Rattle.std.specs.Prelude.{map, replicate, slice_get};
ghost use Rattle.sat_clauses.specs.States.{moved_on};
ghost use Rattle.cert_laws.specs.Acceptance.{Covers};
ghost use Rattle.cert_derivations.specs.Marks.{marked};
ghost use Rattle.cert_derivations.specs.Covering.{CoversNoneIn};

use crate::goals::moved_clause;
use crate::marks::{WINDOW, is_marked, mark_all};
use base_values::OutOfMemory;
use sat_clauses::checker::Checker;
use sat_clauses::clause::Clause;
use sat_clauses::lit::{Lit, contains};
use std::alloc::Global;

/// Whether the clauses of a derivation cover each of these.
pub fn covers_all(checker: &Checker, needed: &[Clause]) -> bool
    ensures { IsTrue result ↔ All (Covers checker.now.clauses) needed.now }
{
    let mut from = 0;
    for clause in needed {
        let Some(place) = covering(checker, clause.lits(), from) else {
            return false;
        };
        from = place;
    }
    true
}

/// Whether the clauses of a derivation cover each of these over the bits of the state next, of which there are so many. One clause is
/// written at a time.
pub fn covers_all_next(
    alloc: Global,
    checker: &Checker,
    needed: &[Clause],
    bits: u32,
) -> Result<bool, OutOfMemory>
    requires { All (All (λ l. (2 ≤ l.var) × (l.var < bits + 2))) needed.now }
    ensures { IfOk result (λ covers. IsTrue covers ↔ All (λ lits. Covers checker.now.clauses (map (moved_on bits) lits)) needed.now) }
{
    let mut from = 0;
    for clause in needed {
        let lits = moved_clause(alloc, clause.lits(), bits)?;
        let Some(place) = covering(checker, lits.as_slice(), from) else {
            return Ok(false);
        };
        from = place;
    }
    Ok(true)
}

/// The place of a clause that covers those needed: the first from a place on, or else the first before it.
fn covering(checker: &Checker, needed: &[Lit], from: usize) -> Option<usize>
    requires { from ≤ length checker.now.clauses }
    ensures found { IfSome result (λ i. (i < length checker.now.clauses) × Covers checker.now.clauses needed.now) }
    ensures none { result ≡ None → Covers checker.now.clauses needed.now → ⊥ }
{
    let mut marks = [false; WINDOW as usize];
    mark_all(&mut marks, 0, needed);
    match covering_in(checker, needed, &marks, from, checker.len()) {
        Some(place) => Some(place),
        None => covering_in(checker, needed, &marks, 0, from),
    }
}

/// The first place from a start up to but not including an end whose clause covers those needed, which are marked.
fn covering_in(
    checker: &Checker,
    needed: &[Lit],
    marks: &[bool],
    start: usize,
    end: usize,
) -> Option<usize>
    requires within { end ≤ length checker.now.clauses }
    requires marks { marks.now ≡ fold (marked 0) (replicate 4096 false) needed.now }
    ensures found { IfSome result (λ i. (i < length checker.now.clauses) × Covers checker.now.clauses needed.now) }
    ensures none { result ≡ None → CoversNoneIn checker.now.clauses needed.now start end }
{
    for i in start..end {
        if is_within(checker.clause(i + 1), needed, marks) {
            return Some(i);
        }
    }
    None
}

/// Whether each literal of a clause is among those needed, which are marked.
fn is_within(clause: &[Lit], needed: &[Lit], marks: &[bool]) -> bool
    requires { marks.now ≡ fold (marked 0) (replicate 4096 false) needed.now }
    ensures { IsTrue result ↔ All (Contains needed.now) clause.now }
{
    for lit in clause {
        if !is_needed(needed, marks, *lit) {
            return false;
        }
    }
    true
}

/// Whether a literal is among those needed: by its mark where its code has one.
fn is_needed(needed: &[Lit], marks: &[bool], lit: Lit) -> bool
    requires { marks.now ≡ fold (marked 0) (replicate 4096 false) needed.now }
    ensures { IsTrue result ↔ Contains needed.now lit }
{
    if lit.code() < WINDOW {
        return is_marked(marks, 0, lit);
    }
    contains(needed, lit)
}
