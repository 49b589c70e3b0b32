//! The slots of a clause base, changed at the places that an occurrence list names.
//!
//! A slot has a clause, or none once that was taken out. Each function changes exactly what its definition says
//! (`specs/Changes.antt`). An occurrence list may name places that have nothing to do with the literal: those stay.
ghost use Rattle.std.specs.Prelude.{◌≡◌, ◌++◌, IfOk, OnOk, IfSome, IfNone, MatchOption, Some};
ghost use Rattle.sat_simplify.specs.Changes.{changed, changed_at, covered, dropped, gathered, picked, shrunk, slot_at};
ghost use Rattle.sat_simplify.specs.Changes.{slot_covered as covered_at, slot_has as has_at};
ghost use Rattle.sat_simplify.specs.Resolution.{subsumes};

use crate::literals::{has, without};
use crate::tally::Tally;
use base_values::OutOfMemory;
use sat_clauses::clause::{Clause, ClauseList};
use sat_clauses::lit::Lit;
use std::alloc::Global;

// Whether a slot's clause has the literal.
fn slot_has(slot: &Option<Clause>, lit: Lit) -> bool
    ensures { result ≡ has_at lit slot.now }
{
    match slot {
        Some(clause) => has(clause.lits(), lit),
        None => false,
    }
}

// The clause of a slot goes.
fn forget(slot: &Option<Clause>, tally: &mut Tally) {
    if let Some(clause) = slot {
        tally.remove_each(clause.lits());
    }
}

// Takes the clause of a place out if it has the literal.
#[tactic(auto, using(crate::proofs::SlotSteps::dropped_rules))]
fn drop_at(slots: &mut Vec<Option<Clause>>, i: usize, lit: Lit, tally: &mut Tally)
    ensures { slots.new.items ≡ changed_at (dropped lit) slots.old.items i }
{
    if i >= slots.len() {
        return;
    }
    if slot_has(&slots[i], lit) {
        forget(&slots[i], tally);
        slots[i] = None;
    }
}

/// Takes the clauses of these places out that have the literal.
#[tactic(auto, using(crate::proofs::SlotSteps::changed_more))]
pub fn drop_each(slots: &mut Vec<Option<Clause>>, at: &[u32], lit: Lit, tally: &mut Tally)
    ensures { slots.new.items ≡ changed (dropped lit) slots.old.items at.now }
{
    for i in at {
        drop_at(slots, *i as usize, lit, tally);
    }
}

// The slot's clause without the literal, if it has it.
fn shrunk_clause(
    alloc: Global,
    slot: &Option<Clause>,
    lit: Lit,
) -> Result<Option<Clause>, OutOfMemory>
    ensures { IfOk result (λ o. MatchOption o (shrunk lit slot.now ≡ slot.now) (λ c. shrunk lit slot.now ≡ Some c)) }
{
    let Some(clause) = slot else {
        return Ok(None);
    };
    if !has(clause.lits(), lit) {
        return Ok(None);
    }
    let less = without(alloc, clause.lits(), lit)?;
    Ok(Some(less))
}

// Takes the literal out of the clause of a place; answers whether that leaves it one literal or none.
#[tactic(auto, using(crate::proofs::SlotSteps::changed_past, crate::proofs::SlotSteps::changed_same, crate::proofs::SlotSteps::changed_to))]
fn shrink_at(
    alloc: Global,
    slots: &mut Vec<Option<Clause>>,
    i: usize,
    lit: Lit,
    tally: &mut Tally,
) -> Result<bool, OutOfMemory>
    ensures { OnOk result (slots.new.items ≡ changed_at (shrunk lit) slots.old.items i) }
{
    if i >= slots.len() {
        return Ok(false);
    }
    let Some(less) = shrunk_clause(alloc, &slots[i], lit)? else {
        return Ok(false);
    };
    tally.shorten(i, lit, less.lits())?;
    let is_short = less.lits().len() <= 1;
    slots[i] = Some(less);
    Ok(is_short)
}

/// Takes the literal out of the clauses of these places; the places of those that are left one literal or none come
/// to the end of `units`.
#[tactic(auto, using(crate::proofs::SlotSteps::changed_more))]
pub fn shrink_each(
    slots: &mut Vec<Option<Clause>>,
    at: &[u32],
    lit: Lit,
    units: &mut Vec<usize>,
    tally: &mut Tally,
) -> Result<(), OutOfMemory>
    ensures { OnOk result (slots.new.items ≡ changed (shrunk lit) slots.old.items at.now) }
{
    let alloc = *units.allocator();
    for i in at {
        if shrink_at(alloc, slots, *i as usize, lit, tally)? {
            units.push(*i as usize)?;
        }
    }
    Ok(())
}

// Whether each literal of the one clause is in the other.
fn is_within(lits: &[Lit], others: &[Lit]) -> bool
    ensures { result ≡ subsumes lits.now others.now }
{
    lits.iter().all(|lit| has(others, *lit))
}

/// Whether a slot has a clause that the clause of these literals subsumes.
pub fn slot_covered(slot: &Option<Clause>, lits: &[Lit]) -> bool
    ensures { result ≡ covered_at lits.now slot.now }
{
    match slot {
        Some(clause) => is_within(lits, clause.lits()),
        None => false,
    }
}

// Takes the clause of a place out if the clause of these literals subsumes it.
#[tactic(auto, using(crate::proofs::SlotSteps::covered_rules))]
fn cover_at(slots: &mut Vec<Option<Clause>>, i: usize, lits: &[Lit], tally: &mut Tally)
    ensures { slots.new.items ≡ changed_at (covered lits.now) slots.old.items i }
{
    if i >= slots.len() {
        return;
    }
    if slot_covered(&slots[i], lits) {
        forget(&slots[i], tally);
        slots[i] = None;
    }
}

/// Takes the clauses of these places out that the clause of these literals subsumes.
#[tactic(auto, using(crate::proofs::SlotSteps::changed_more))]
pub fn cover_each(slots: &mut Vec<Option<Clause>>, at: &[u32], lits: &[Lit], tally: &mut Tally)
    ensures { slots.new.items ≡ changed (covered lits.now) slots.old.items at.now }
{
    for i in at {
        cover_at(slots, *i as usize, lits, tally);
    }
}

// Appends the clause of a place if it has the literal.
fn pick_at(
    list: &mut ClauseList,
    slots: &[Option<Clause>],
    i: usize,
    lit: Lit,
) -> Result<(), OutOfMemory>
    ensures { OnOk result (list.new ≡ list.old ++ picked lit (slot_at slots.now i)) }
{
    if i >= slots.len() {
        return Ok(());
    }
    let Some(clause) = &slots[i] else {
        return Ok(());
    };
    if !has(clause.lits(), lit) {
        return Ok(());
    }
    list.push_lits(clause.lits())
}

/// Copies of those clauses of these places that have the literal.
#[tactic(auto, using(crate::proofs::SlotSteps::gathered_more))]
pub fn gather(
    alloc: Global,
    slots: &[Option<Clause>],
    at: &[u32],
    lit: Lit,
) -> Result<ClauseList, OutOfMemory>
    ensures { IfOk result (λ list. list ≡ gathered lit slots.now at.now) }
{
    let mut list = ClauseList::new(alloc);
    for i in at {
        pick_at(&mut list, slots, *i as usize, lit)?;
    }
    Ok(list)
}
