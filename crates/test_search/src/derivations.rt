//! Steps that a checker takes and refuses, by hints that were worked out by hand, and a long derivation.
use crate::clauses::{are_up_to, lits_of};
use base_values::OutOfMemory;
use sat_clauses::checker::Checker;
use sat_clauses::clause::Clause;
use sat_clauses::recorder::{KeepAll, KeepNone, Recorder};
use sat_clauses::step::{HintList, Step, StepFault};
use std::alloc::Global;
use std::test::Fail;

// The answer to a step as a number: of a bad hint its place.
const TAKEN: u64 = 0;

const NO_CONFLICT: u64 = 1000;

const NO_ROOM: u64 = 2000;

fn hints_of(alloc: Global, hints: &[u64]) -> Result<HintList, OutOfMemory> {
    let mut list = HintList::new(alloc);
    for hint in hints {
        list.push(*hint)?;
    }
    Ok(list)
}

fn step_of(alloc: Global, numbers: &[i64], hints: &[u64]) -> Result<Step, OutOfMemory> {
    let lits = lits_of(alloc, numbers)?;
    Ok(Step {
        clause: Clause::from_lits(alloc, &lits)?,
        hints: hints_of(alloc, hints)?,
    })
}

// Gives a clause, if its variables are in range.
fn give(alloc: Global, checker: &mut Checker, numbers: &[i64]) -> Result<(), OutOfMemory> {
    let lits = lits_of(alloc, numbers)?;
    let clause = Clause::from_lits(alloc, &lits)?;
    if are_up_to(clause.lits(), checker.vars()) {
        checker.add_given(&clause)?;
    }
    Ok(())
}

fn number_told(told: Result<(), StepFault>) -> u64 {
    match told {
        Ok(()) => TAKEN,
        Err(StepFault::BadHint(place)) => place,
        Err(StepFault::NoConflict) => NO_CONFLICT,
    }
}

// The answer to a step within the room that there is.
fn answer(checker: &mut Checker, step: &Step) -> u64 {
    if checker.can_take(&step.clause) {
        number_told(checker.step(step))
    } else {
        NO_ROOM
    }
}

// The answer to the step of a row, for which there is room.
fn answers(
    alloc: Global,
    checker: &mut Checker,
    numbers: &[i64],
    hints: &[u64],
) -> Result<u64, OutOfMemory> {
    let step = step_of(alloc, numbers, hints)?;
    checker.reserve(1, numbers.len())?;
    Ok(answer(checker, &step))
}

// The first row with another answer, or another number of clauses after it.
fn first_wrong(
    alloc: Global,
    checker: &mut Checker,
    rows: &[(&[i64], &[u64], u64, usize)],
) -> Result<Option<usize>, OutOfMemory> {
    for (i, row) in rows.iter().enumerate() {
        let told = answers(alloc, checker, row.0, row.1)?;
        if told != row.2 || checker.len() != row.3 {
            return Ok(Some(i));
        }
    }
    Ok(None)
}

// A checker that was given [1] and [-1 2].
fn small_checker(alloc: Global) -> Result<Checker, OutOfMemory> {
    let mut checker = Checker::new(alloc, 2)?;
    give(alloc, &mut checker, &[1])?;
    give(alloc, &mut checker, &[-1, 2])?;
    Ok(checker)
}

#[test]
fn takes_what_follows_by_hints(rt: HostRuntime) -> Result<(), Fail> {
    let mut checker = small_checker(rt.alloc())?;
    let wrong = first_wrong(
        rt.alloc(),
        &mut checker,
        &[
            (&[2], &[1, 2], TAKEN, 3),
            (&[], &[1], NO_CONFLICT, 3),
            (&[], &[5], 1, 3),
            // Clause 2 gives -1, and clause 1 is then false at the last hint.
            (&[2], &[2, 1], TAKEN, 4),
            (&[2], &[2, 1, 1], 3, 4),
            (&[2], &[0], 1, 4),
            // Clause 1 gives 1 and is then true.
            (&[2], &[1, 1, 2], 2, 4),
            // Both literals of clause 2 are free.
            (&[], &[2], 1, 4),
            (&[2, 2], &[3], TAKEN, 5),
        ],
    )?;
    assert_eq!(rt; wrong, None);
    Ok(())
}

// The links of a long chain.
const LINKS: u64 = 100_000;

// The clauses of the chain: 1, and then -i or i + 1 for each link.
fn give_chain(alloc: Global, checker: &mut Checker) -> Result<(), OutOfMemory> {
    give(alloc, checker, &[1])?;
    for i in 1..=LINKS as i64 {
        give(alloc, checker, &[i.wrapping_neg(), i.wrapping_add(1)])?;
    }
    Ok(())
}

// The step of a link, i + 1, by the step before it.
fn link(alloc: Global, i: u64) -> Result<Step, OutOfMemory> {
    let before = if i == 1 { 1 } else { LINKS.wrapping_add(i) };
    let next = i.wrapping_add(1);
    step_of(alloc, &[next.cast_signed()], &[before, next])
}

// The first link whose step is not taken.
fn first_not_taken(alloc: Global, checker: &mut Checker) -> Result<Option<u64>, OutOfMemory> {
    for i in 1..=LINKS {
        let step = link(alloc, i)?;
        if answer(checker, &step) != TAKEN {
            return Ok(Some(i));
        }
    }
    Ok(None)
}

// A checker that was given the chain, with room for its steps.
fn chain_checker(alloc: Global) -> Result<Checker, OutOfMemory> {
    let mut checker = Checker::new(alloc, LINKS + 1)?;
    give_chain(alloc, &mut checker)?;
    checker.reserve(LINKS as usize, LINKS as usize)?;
    Ok(checker)
}

// A chain of 100,001 clauses, and 100,000 steps, each by the step before.
#[test]
fn a_long_derivation_is_checked_at_once(rt: HostRuntime) -> Result<(), Fail> {
    let mut checker = chain_checker(rt.alloc())?;
    assert_eq!(rt; first_not_taken(rt.alloc(), &mut checker)?, None);
    assert_eq!(rt; checker.len(), 200_001);
    Ok(())
}

// How many steps a recorder has that was handed this one, and another that keeps none too.
fn kept(alloc: Global, step: &Step) -> Result<usize, OutOfMemory> {
    let mut all = KeepAll::new(alloc);
    all.keep(step)?;
    KeepNone.keep(step)?;
    Ok(all.steps().copy()?.len())
}

#[test]
fn a_recorder_keeps_all_steps_or_none(rt: HostRuntime) -> Result<(), Fail> {
    let step = step_of(rt.alloc(), &[2], &[1, 2])?;
    assert_eq!(rt; kept(rt.alloc(), &step)?, 1);
    Ok(())
}
