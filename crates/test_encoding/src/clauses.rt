//! What is asked of clause lists: whether they can be made true with given bits, and whether they are those of numbers.
use base_values::OutOfMemory;
use sat_adviser::Panel;
use sat_clauses::clause::ClauseList;
use sat_clauses::lit::Lit;
use sat_clauses::recorder::KeepNone;
use sat_solver::solve::{Verdict, can_solve, solve};
use std::alloc::Global;

/// The literal of a variable from 1 to a thousand.
fn literal(variable: u64, negated: bool) -> Lit {
    Lit::new(variable.max(1).min(1000), negated)
}

/// Gives so many variables from a place on the lowest bits of a number.
pub fn push_bits(
    lits: &mut Vec<Lit>,
    place: u64,
    count: u32,
    bits: u32,
) -> Result<(), OutOfMemory> {
    let mut left = bits;
    for i in 0..count {
        let variable = place.wrapping_add(u64::from(i));
        lits.push(literal(variable, left.is_multiple_of(2)))?;
        left /= 2;
    }
    Ok(())
}

/// The highest variable of these literals, or one that is higher.
fn highest_of(lits: &[Lit], other: u64) -> u64 {
    let mut highest = other;
    for lit in lits {
        highest = highest.max(lit.var());
    }
    highest
}

/// The highest variable of a list and of literals.
fn vars_of(list: &ClauseList, lits: &[Lit]) -> u64 {
    let mut vars = highest_of(lits, 1);
    for clause in list.as_slice() {
        vars = highest_of(clause.lits(), vars);
    }
    vars
}

/// Whether a list can be made true with these literals, or None where this cannot be asked.
pub fn can_be_true(
    alloc: Global,
    list: &ClauseList,
    lits: &[Lit],
) -> Result<Option<bool>, OutOfMemory> {
    let vars = vars_of(list, lits);
    if !can_solve(list, vars, lits) {
        return Ok(None);
    }
    let mut panel = Panel::new(Vec::new(alloc));
    match solve(alloc, list, vars, lits, &mut panel, &mut KeepNone)? {
        Verdict::Sat(_) => Ok(Some(true)),
        Verdict::Unsat(_) => Ok(Some(false)),
    }
}

/// Whether it can with the bits of a state.
pub fn holds_in(
    alloc: Global,
    list: &ClauseList,
    bits: u32,
    state: u32,
) -> Result<Option<bool>, OutOfMemory> {
    let mut lits = Vec::new(alloc);
    push_bits(&mut lits, 2, bits, state)?;
    can_be_true(alloc, list, &lits)
}

/// A literal as a number: its variable, below 0 for a negation.
fn number_of(lit: Lit) -> i64 {
    let number = lit.var() as i64;
    if lit.is_negated() { -number } else { number }
}

/// Whether a clause has these numbers.
fn has_numbers(lits: &[Lit], numbers: &[i64]) -> bool {
    if lits.len() != numbers.len() {
        return false;
    }
    for (i, lit) in lits.iter().enumerate() {
        if number_of(*lit) != numbers[i] {
            return false;
        }
    }
    true
}

/// Whether the clauses of a list have these numbers.
pub fn is_list_of(list: &ClauseList, clauses: &[&[i64]]) -> bool {
    if list.len() != clauses.len() {
        return false;
    }
    for (i, numbers) in clauses.iter().enumerate() {
        if !has_numbers(list.at(i).lits(), numbers) {
            return false;
        }
    }
    true
}
