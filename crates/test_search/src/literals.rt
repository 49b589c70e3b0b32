//! What a clause is while its literals get values.
use crate::clauses::{are_up_to, literal, lits_of, make_true, number_of};
use base_values::OutOfMemory;
use sat_clauses::assign::Assign;
use sat_clauses::clause::{Clause, ClauseList, Truth};
use sat_clauses::truth::truth;
use std::alloc::Global;
use std::test::Fail;

// What a clause is as a number: of a unit clause that of its free literal.
const UNKNOWN: i64 = 0;

const TRUE: i64 = 100;

const FALSE: i64 = -100;

const STRANGE: i64 = 200;

// The clause of these numbers, after it went through a list and through copies.
fn copied(alloc: Global, numbers: &[i64]) -> Result<ClauseList, OutOfMemory> {
    let lits = lits_of(alloc, numbers)?;
    let clause = Clause::from_lits(alloc, &lits)?.copy()?;
    let mut list = ClauseList::new(alloc);
    list.push(clause)?;
    list.copy()
}

fn number_told(told: Truth) -> i64 {
    match told {
        Truth::Unknown => UNKNOWN,
        Truth::True => TRUE,
        Truth::False => FALSE,
        Truth::Unit(lit) => number_of(lit),
    }
}

// What the only clause of a list is.
fn told(list: &ClauseList, assign: &Assign) -> i64 {
    if list.len() != 1 {
        return STRANGE;
    }
    let clause = list.at(0);
    if !are_up_to(clause.lits(), assign.vars()) {
        return STRANGE;
    }
    number_told(truth(clause, assign))
}

// Frees the variable of a number.
fn free(assign: &mut Assign, number: i64) {
    let var = literal(number).var();
    if var <= assign.vars() {
        assign.clear(var);
    }
}

// What the clause of the numbers is where nothing has a value, then where `first` is true too, then
// `second` too, and last where the variable of `first` is free again.
fn passed_through(
    alloc: Global,
    numbers: &[i64],
    first: i64,
    second: i64,
) -> Result<[i64; 4], OutOfMemory> {
    let list = copied(alloc, numbers)?;
    let mut assign = Assign::with_vars(alloc, 8)?;
    let nothing = told(&list, &assign);
    make_true(&mut assign, first);
    let one = told(&list, &assign);
    let mut both = assign.copy()?;
    make_true(&mut both, second);
    let two = told(&list, &both);
    free(&mut both, first);
    Ok([nothing, one, two, told(&list, &both)])
}

// The first row whose clause is not what it must be.
fn first_wrong(
    alloc: Global,
    rows: &[(&[i64], i64, i64, [i64; 4])],
) -> Result<Option<usize>, OutOfMemory> {
    for (i, row) in rows.iter().enumerate() {
        if passed_through(alloc, row.0, row.1, row.2)? != row.3 {
            return Ok(Some(i));
        }
    }
    Ok(None)
}

#[test]
fn a_clause_is_true_false_unit_or_unknown(rt: HostRuntime) -> Result<(), Fail> {
    let wrong = first_wrong(
        rt.alloc(),
        &[
            (&[2, 2, 3], -3, -2, [UNKNOWN, 2, FALSE, 3]),
            (&[], 1, 2, [FALSE, FALSE, FALSE, FALSE]),
            (&[2, -2], 1, -2, [UNKNOWN, UNKNOWN, TRUE, TRUE]),
            (&[-1, 2], 1, 3, [UNKNOWN, 2, 2, UNKNOWN]),
        ],
    )?;
    assert_eq!(rt; wrong, None);
    Ok(())
}
