//! Arithmetic on constants, whose clauses settle every variable by unit propagation.
ghost use Rattle.std.specs.Prelude.{◌≤◌, ◌-◌, ◌^◌, length};
ghost use Rattle.sat_circuits.specs.Words.{IsWordOf};

use base_values::OutOfMemory;
use sat_circuits::compare::{equal, less};
use sat_circuits::constants::number_at;
use sat_circuits::counts::at_most;
use sat_circuits::gates::Gates;
use sat_circuits::products::multiply;
use sat_circuits::quotients::{divide, remainder};
use sat_circuits::sums::{add, negate, subtract};
use sat_circuits::word::Word;
use sat_clauses::clause::{Clause, ClauseList};
use sat_clauses::lit::Lit;
use std::alloc::Global;
use std::test::Fail;

#[derive(Clone, Copy)]
enum Operation {
    Add,
    Subtract,
    Multiply,
    Divide,
    Remainder,
    Negate,
}

fn value_of(values: &[Option<bool>], lit: Lit) -> Option<bool> {
    match values.get(lit.var() as usize) {
        Some(Some(value)) => Some(*value != lit.is_negated()),
        _ => None,
    }
}

/// The one literal of the clause that is not false, if it is free.
fn unit(clause: &Clause, values: &[Option<bool>]) -> Option<Lit> {
    let mut free = None;
    for lit in clause.lits() {
        match value_of(values, *lit) {
            Some(false) => {}
            Some(true) => return None,
            None if free.is_some() => return None,
            None => free = Some(*lit),
        }
    }
    free
}

/// Each clause once, in order, which settles a gate from its inputs.
fn propagate(clauses: &ClauseList, values: &mut [Option<bool>]) {
    for i in 0..clauses.len() {
        if let Some(lit) = unit(clauses.at(i), values) {
            if let Some(value) = values.get_mut(lit.var() as usize) {
                *value = Some(!lit.is_negated());
            }
        }
    }
}

fn number_of(word: &Word, values: &[Option<bool>]) -> i64 {
    let mut number: i64 = 0;
    let mut weight: i64 = 1;
    let mut sign: i64 = 0;
    for lit in word.as_slice() {
        let bit = value_of(values, *lit) == Some(true);
        sign = if bit { weight } else { 0 };
        number = number.wrapping_add(sign);
        weight = weight.wrapping_mul(2);
    }
    number.wrapping_sub(sign).wrapping_sub(sign)
}

// The word of an operation on two words of these gates.
fn made(
    alloc: Global,
    operation: Operation,
    g: &mut Gates,
    x: &Word,
    y: &Word,
) -> Result<Word, OutOfMemory>
    requires left { IsWordOf g.old x.now }
    requires right { IsWordOf g.old y.now }
    requires widths { (length x.now ≤ 34) × (length y.now ≤ 34) }
    requires room { g.old.free ≤ 2 ^ 31 - 20000 }
{
    match operation {
        Operation::Add => add(alloc, g, x, y, 5),
        Operation::Subtract => subtract(alloc, g, x, y, 5),
        Operation::Multiply => multiply(alloc, g, x, y, 8),
        Operation::Divide => divide(alloc, g, x, y, 5),
        Operation::Remainder => remainder(alloc, g, x, y, 5),
        Operation::Negate => negate(alloc, g, x, 5),
    }
}

// What the clauses of gates without inputs make of a word.
fn number_in(alloc: Global, g: &Gates, word: &Word) -> Result<i64, OutOfMemory> {
    let mut values = vec![in alloc; None; 2048]?;
    propagate(g.clauses(), &mut values);
    Ok(number_of(word, &values))
}

fn result_of(alloc: Global, operation: Operation, a: i64, b: i64) -> Result<i64, OutOfMemory> {
    let mut g = Gates::new(alloc, 2)?;
    let x = number_at(alloc, &g, a, 4)?;
    let y = number_at(alloc, &g, b, 4)?;
    let word = made(alloc, operation, &mut g, &x, &y)?;
    number_in(alloc, &g, &word)
}

// The literal that says that a number is below another one, or else that they are equal.
fn relation(
    alloc: Global,
    is_below: bool,
    g: &mut Gates,
    x: &Word,
    y: &Word,
) -> Result<Lit, OutOfMemory>
    requires left { IsWordOf g.old x.now }
    requires right { IsWordOf g.old y.now }
    requires widths { (length x.now ≤ 34) × (length y.now ≤ 34) }
    requires room { g.old.free ≤ 2 ^ 31 - 20000 }
{
    if is_below {
        less(alloc, g, x, y)
    } else {
        equal(alloc, g, x, y)
    }
}

fn related(alloc: Global, is_below: bool, a: i64, b: i64) -> Result<Option<bool>, OutOfMemory> {
    let mut g = Gates::new(alloc, 2)?;
    let x = number_at(alloc, &g, a, 4)?;
    let y = number_at(alloc, &g, b, 4)?;
    let lit = relation(alloc, is_below, &mut g, &x, &y)?;
    told_by(alloc, &g, lit)
}

/// What the clauses of gates without inputs make of a literal.
fn told_by(alloc: Global, g: &Gates, lit: Lit) -> Result<Option<bool>, OutOfMemory> {
    let mut values = vec![in alloc; None; 256]?;
    propagate(g.clauses(), &mut values);
    Ok(value_of(&values, lit))
}

// Gives the variables from 2 on these values.
fn give(values: &mut [Option<bool>], bits: [bool; 3]) {
    for (i, bit) in bits.iter().enumerate() {
        if let Some(value) = values.get_mut(i.wrapping_add(2)) {
            *value = Some(*bit);
        }
    }
}

// Whether at most `n` of the variables 2, 3 and 4 are true.
fn at_most_of(alloc: Global, bits: [bool; 3], n: u32) -> Result<Option<bool>, OutOfMemory> {
    if n > 3 {
        return Ok(None);
    }
    let lits = [Lit::new(2, false), Lit::new(3, false), Lit::new(4, false)];
    let mut g = Gates::new(alloc, 5)?;
    let most = at_most(alloc, &mut g, &lits, n)?;
    let mut values = vec![in alloc; None; 64]?;
    give(&mut values, bits);
    propagate(g.clauses(), &mut values);
    Ok(value_of(&values, most))
}

// Whether the quotient and the remainder are those of the language.
fn divides(alloc: Global, a: i64, b: i64) -> Result<bool, OutOfMemory> {
    let quotient = result_of(alloc, Operation::Divide, a, b)?;
    let rest = result_of(alloc, Operation::Remainder, a, b)?;
    Ok(a.checked_div(b) == Some(quotient) && a.checked_rem(b) == Some(rest))
}

// The first two numbers of four bits that are divided otherwise.
fn first_divided_wrong(alloc: Global) -> Result<Option<(i64, i64)>, OutOfMemory> {
    for a in -8i64..8 {
        for b in -8i64..8 {
            if b != 0 && !divides(alloc, a, b)? {
                return Ok(Some((a, b)));
            }
        }
    }
    Ok(None)
}

#[test]
fn divides_all_words_of_four_bits(rt: HostRuntime) -> Result<(), Fail> {
    assert_eq!(rt; first_divided_wrong(rt.alloc())?, None);
    assert_eq!(rt; result_of(rt.alloc(), Operation::Divide, -8, -1)?, 8);
    Ok(())
}

// The first row of an operation on two numbers that gives another one.
fn first_wrong(
    alloc: Global,
    rows: &[(Operation, i64, i64, i64)],
) -> Result<Option<usize>, OutOfMemory> {
    for (i, row) in rows.iter().enumerate() {
        if result_of(alloc, row.0, row.1, row.2)? != row.3 {
            return Ok(Some(i));
        }
    }
    Ok(None)
}

// The first row of two numbers that are below one another, or equal, otherwise.
fn first_related_wrong(
    alloc: Global,
    rows: &[(bool, i64, i64, bool)],
) -> Result<Option<usize>, OutOfMemory> {
    for (i, row) in rows.iter().enumerate() {
        if related(alloc, row.0, row.1, row.2)? != Some(row.3) {
            return Ok(Some(i));
        }
    }
    Ok(None)
}

// The first three bits, as a number, and the bound within which they are counted wrong.
fn first_counted_wrong(alloc: Global) -> Result<Option<(u32, u32)>, OutOfMemory> {
    for i in 0..8u32 {
        let bits = [i & 1 != 0, i & 2 != 0, i & 4 != 0];
        for most in 0..2u32 {
            if at_most_of(alloc, bits, most)? != Some(i.count_ones() <= most) {
                return Ok(Some((i, most)));
            }
        }
    }
    Ok(None)
}

#[test]
fn adds_multiplies_compares_and_counts(rt: HostRuntime) -> Result<(), Fail> {
    let rows = [
        (Operation::Add, 7, -8, -1),
        (Operation::Subtract, -8, 7, -15),
        (Operation::Multiply, -8, 7, -56),
        (Operation::Negate, -8, 0, 8),
    ];
    assert_eq!(rt; first_wrong(rt.alloc(), &rows)?, None);
    let rows = [
        (true, -8, 7, true),
        (false, -8, 7, false),
        (true, 3, 3, false),
        (false, 3, 3, true),
    ];
    assert_eq!(rt; first_related_wrong(rt.alloc(), &rows)?, None);
    assert_eq!(rt; first_counted_wrong(rt.alloc())?, None);
    Ok(())
}
