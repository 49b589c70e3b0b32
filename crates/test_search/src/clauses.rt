//! Clauses of plain numbers: v is a variable, -v its negation, and 0 ends a clause.
ghost use Rattle.std.specs.Prelude.{◌↔◌, IsTrue, All};
ghost use Rattle.sat_clauses.specs.Derivation.{IsUpTo};

use base_values::OutOfMemory;
use sat_clauses::assign::Assign;
use sat_clauses::clause::ClauseList;
use sat_clauses::lit::Lit;
use std::alloc::Global;

/// The literal of a number other than 0, up to a million.
pub fn literal(number: i64) -> Lit {
    Lit::new(number.unsigned_abs().max(1).min(1_000_000), number < 0)
}

/// The number of a literal.
pub fn number_of(lit: Lit) -> i64 {
    let number = lit.var() as i64;
    if lit.is_negated() { -number } else { number }
}

/// The literals of these numbers.
pub fn lits_of(alloc: Global, numbers: &[i64]) -> Result<Vec<Lit>, OutOfMemory> {
    let mut lits = Vec::new(alloc);
    for number in numbers {
        lits.push(literal(*number))?;
    }
    Ok(lits)
}

/// Whether the literals are those of these numbers.
pub fn are(lits: &[Lit], numbers: &[i64]) -> bool {
    if lits.len() != numbers.len() {
        return false;
    }
    for (lit, number) in lits.iter().zip(numbers) {
        if number_of(*lit) != *number {
            return false;
        }
    }
    true
}

/// Appends the clauses of these numbers.
pub fn add(alloc: Global, list: &mut ClauseList, numbers: &[i64]) -> Result<(), OutOfMemory> {
    let mut lits = Vec::new(alloc);
    for number in numbers {
        if *number == 0 {
            list.push_lits(&lits)?;
            lits.clear();
        } else {
            lits.push(literal(*number))?;
        }
    }
    Ok(())
}

/// The clauses of these numbers.
pub fn list_of(alloc: Global, numbers: &[i64]) -> Result<ClauseList, OutOfMemory> {
    let mut list = ClauseList::new(alloc);
    add(alloc, &mut list, numbers)?;
    Ok(list)
}

/// Whether the variables of the literals are at most `vars`.
pub fn are_up_to(lits: &[Lit], vars: u64) -> bool
    ensures { IsTrue result ↔ All (IsUpTo vars) lits.now }
{
    lits.iter().all(|lit| lit.var() <= vars)
}

/// Makes the literal of a number true, if it is free.
pub fn make_true(assign: &mut Assign, number: i64) {
    let lit = literal(number);
    if lit.var() <= assign.vars() && assign.value(lit).is_none() {
        assign.set(lit);
    }
}

/// That pigeon p sits in hole h, both from 0, is the variable p * holes + h + 1.
fn sits(holes: i64, p: i64, h: i64) -> i64 {
    p.wrapping_mul(holes).wrapping_add(h).wrapping_add(1)
}

/// A pigeon sits in some hole.
fn somewhere(alloc: Global, list: &mut ClauseList, holes: i64, p: i64) -> Result<(), OutOfMemory> {
    let mut lits = Vec::new(alloc);
    for h in 0..holes {
        lits.push(literal(sits(holes, p, h)))?;
    }
    list.push_lits(&lits)?;
    Ok(())
}

/// Two pigeons sit in no hole together.
fn apart(
    alloc: Global,
    list: &mut ClauseList,
    holes: i64,
    p: i64,
    q: i64,
) -> Result<(), OutOfMemory> {
    for h in 0..holes {
        let one = sits(holes, p, h).wrapping_neg();
        let other = sits(holes, q, h).wrapping_neg();
        list.push_lits(&[literal(one), literal(other)])?;
    }
    Ok(())
}

/// So many pigeons sit in so many holes, each alone.
pub fn crowd(alloc: Global, holes: i64, pigeons: i64) -> Result<ClauseList, OutOfMemory> {
    let mut list = ClauseList::new(alloc);
    for p in 0..pigeons {
        somewhere(alloc, &mut list, holes, p)?;
        for q in 0..p {
            apart(alloc, &mut list, holes, p, q)?;
        }
    }
    Ok(list)
}
