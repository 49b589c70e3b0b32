//! What stores find right after a literal was made true: the plain one and the one with watched literals.
use crate::clauses::{are, are_up_to, literal, lits_of};
use base_values::OutOfMemory;
use sat_clauses::store::{PlainStore, Store};
use sat_solver::arena::Arena;
use std::alloc::Global;
use std::test::Fail;

// What is done to a store: a clause is appended, a literal made true, all but so many literals of the
// trail are dropped, or a variable comes.
#[derive(Clone, Copy)]
enum Deed {
    Push,
    Set(i64),
    Undo(u64),
    More,
}

// What is done, with the numbers of a clause to append, and then the trail and the clauses found.
type Row<'a> = (Deed, &'a [i64], &'a [i64], &'a [u64]);

/// Appends a clause whose variables are in range.
pub fn push<S: Store>(alloc: Global, store: &mut S, numbers: &[i64]) -> Result<(), OutOfMemory> {
    let lits = lits_of(alloc, numbers)?;
    if store.vars() < 100 && are_up_to(&lits, store.vars()) {
        store.push(&lits)?;
    }
    Ok(())
}

// Makes the literal of a number true, if it is free.
fn set<S: Store>(store: &mut S, number: i64) {
    let lit = literal(number);
    let assign = store.assign();
    if lit.var() <= store.vars() && lit.var() <= assign.vars() && assign.value(lit).is_none() {
        store.set(lit);
    }
}

fn undo<S: Store>(store: &mut S, keep: u64) {
    if keep <= store.trail().len() as u64 {
        store.undo(keep);
    }
}

fn act<S: Store>(
    alloc: Global,
    store: &mut S,
    deed: Deed,
    numbers: &[i64],
) -> Result<(), OutOfMemory> {
    match deed {
        Deed::Push => push(alloc, store, numbers)?,
        Deed::Set(number) => set(store, number),
        Deed::Undo(keep) => undo(store, keep),
        Deed::More => store.more()?,
    }
    Ok(())
}

// The first row after which the trail or what was found is another one.
fn first_wrong<S: Store>(
    alloc: Global,
    store: &mut S,
    rows: &[Row<'_>],
) -> Result<Option<usize>, OutOfMemory> {
    for (i, row) in rows.iter().enumerate() {
        act(alloc, store, row.0, row.1)?;
        if !are(store.trail(), row.2) || store.found() != row.3 {
            return Ok(Some(i));
        }
    }
    Ok(None)
}

// Whether a store has these variables, and so many clauses, of which the first is that of these numbers.
fn has<S: Store>(store: &S, vars: u64, count: u64, numbers: &[i64]) -> bool {
    store.vars() == vars && store.count() == count && count >= 1 && are(store.lits(1), numbers)
}

// Clauses are found right after a literal became false, also those that came under a trail.
const ROWS: &[Row<'static>] = &[
    (Deed::Push, &[2, 2, 3], &[], &[]),
    (Deed::Push, &[-3, 4], &[], &[]),
    (Deed::Set(-2), &[], &[-2], &[1]),
    (Deed::Set(3), &[], &[-2, 3], &[2]),
    (Deed::Undo(1), &[], &[-2], &[]),
    (Deed::Push, &[2, -3], &[-2], &[]),
    (Deed::Set(-3), &[], &[-2, -3], &[1]),
    (Deed::More, &[], &[-2, -3], &[]),
];

#[test]
fn both_stores_find_alike(rt: HostRuntime) -> Result<(), Fail> {
    let alloc = rt.alloc();
    let mut plain = PlainStore::new(alloc, 4)?;
    assert_eq!(rt; first_wrong(alloc, &mut plain, ROWS)?, None);
    assert!(rt; has(&plain, 5, 3, &[2, 2, 3]));
    let mut watched = Arena::new(alloc, 4)?;
    assert_eq!(rt; first_wrong(alloc, &mut watched, ROWS)?, None);
    assert!(rt; has(&watched, 5, 3, &[2, 2, 3]));
    Ok(())
}
