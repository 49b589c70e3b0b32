//! Simpler lists say the same of their places as the lists that they were made of: by trying every value of every
//! variable of small lists, and by what is left of lists whose gates follow from each other.
use base_values::OutOfMemory;
use sat_clauses::clause::{Clause, ClauseList};
use sat_clauses::lit::Lit;
use sat_simplify::simplified;
use std::alloc::Global;
use std::test::Fail;

// The highest place, the highest variable of the small lists, and how many of them are tried.
const PLACES: u64 = 4;

const HIGHEST: u64 = 8;

const LISTS: u64 = 60;

// The bits of the places among the values of all variables up to the highest.
const PLACE_BITS: u64 = 0b11100;

const ALL_BITS: u64 = 512;

// What a literal is where the bit of a variable's number is its value.
fn value(bits: u64, lit: Lit) -> bool {
    (bits >> lit.var().min(63)) % 2 == u64::from(!lit.is_negated())
}

fn is_true(bits: u64, lits: &[Lit]) -> bool {
    lits.iter().any(|lit| value(bits, *lit))
}

fn are_true(bits: u64, list: &[Clause]) -> bool {
    list.iter().all(|clause| is_true(bits, clause.lits()))
}

// Whether some values with these of the places make the list true.
fn is_met(list: &[Clause], places: u64) -> bool {
    for bits in 0..ALL_BITS {
        if bits & PLACE_BITS == places & PLACE_BITS && are_true(bits, list) {
            return true;
        }
    }
    false
}

// Whether two lists are met with the same values of the places.
fn are_alike(old: &[Clause], new: &[Clause]) -> bool {
    for places in 0..ALL_BITS {
        if places & !PLACE_BITS == 0 && is_met(old, places) != is_met(new, places) {
            return false;
        }
    }
    true
}

// The next of a sequence of numbers that look like chance.
fn next(number: &mut u64) -> u64 {
    *number = number
        .wrapping_mul(6364136223846793005)
        .wrapping_add(1442695040888963407);
    *number >> 33
}

// A literal of the small lists.
fn any_literal(number: &mut u64) -> Lit {
    let var = next(number) % HIGHEST + 1;
    Lit::new(var, next(number) % 2 == 1)
}

// A list of up to fourteen clauses with up to three literals each.
fn any_list(alloc: Global, number: &mut u64) -> Result<ClauseList, OutOfMemory> {
    let mut list = ClauseList::new(alloc);
    for _ in 0..next(number) % 14 + 1 {
        let mut lits = Vec::new(alloc);
        for _ in 0..next(number) % 3 + 1 {
            lits.push(any_literal(number))?;
        }
        list.push_lits(lits.as_slice())?;
    }
    Ok(list)
}

// Whether no variable of the literals is above a number.
fn are_below(lits: &[Lit], most: u64) -> bool {
    lits.iter().all(|lit| lit.var() <= most)
}

// How many of the small lists say something else of their places once they are simpler.
fn different(alloc: Global) -> Result<u64, OutOfMemory> {
    let mut number = 1;
    let mut count = 0u64;
    for _ in 0..LISTS {
        let list = any_list(alloc, &mut number)?;
        let new = simplified(alloc, PLACES, list.as_slice())?;
        let alike = are_alike(list.as_slice(), new.as_slice());
        count = count.saturating_add(u64::from(!alike));
    }
    Ok(count)
}

// That a gate is true exactly where two literals are.
fn push_gate(list: &mut ClauseList, gate: Lit, one: Lit, other: Lit) -> Result<(), OutOfMemory> {
    list.push_lits(&[gate.neg(), one])?;
    list.push_lits(&[gate.neg(), other])?;
    list.push_lits(&[gate, one.neg(), other.neg()])
}

// A chain of gates above the places, each of which is true where the one before it and a place are; the last is true.
fn chain(alloc: Global, gates: u64) -> Result<ClauseList, OutOfMemory> {
    let mut list = ClauseList::new(alloc);
    let mut last = Lit::new(2, false);
    for i in 0..gates.min(1_000_000) {
        let gate = Lit::new(PLACES + 1 + i, false);
        push_gate(&mut list, gate, last, Lit::new(2 + i % 3, false))?;
        last = gate;
    }
    list.push_lits(&[last])?;
    Ok(list)
}

// How many clauses are left of a chain, and how many of them have a variable that is no place.
fn left(alloc: Global, gates: u64) -> Result<(usize, usize), OutOfMemory> {
    let list = chain(alloc, gates)?;
    let new = simplified(alloc, PLACES, list.as_slice())?;
    let above = new
        .as_slice()
        .iter()
        .filter(|clause| !are_below(clause.lits(), PLACES))
        .count();
    Ok((new.len(), above))
}

#[test]
fn simpler_lists_say_the_same_of_their_places(rt: HostRuntime) -> Result<(), Fail> {
    assert_eq!(rt; different(rt.alloc())?, 0);
    Ok(())
}

#[test]
fn a_long_chain_of_gates_leaves_its_places_alone(rt: HostRuntime) -> Result<(), Fail> {
    assert_eq!(rt; left(rt.alloc(), 20_000)?, (3, 0));
    Ok(())
}
