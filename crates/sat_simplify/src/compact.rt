//! The variables of a list that are above its places, numbered without gaps.
//!
//! Whoever searches a list gives each variable up to its highest a value, so numbers that no clause has any more would
//! cost as much as those that stand. [`compact`] is the main function: which variables above the places stand is
//! marked, how many below each do not is counted, and each goes down by so many (`specs/CompactNumbers.antt`).
ghost use Rattle.std.specs.Prelude.{◌≡◌, ◌<◌, ◌^◌, IfOk, OnOk, All, IsTrue, length, slice_index_or, false};
ghost use Rattle.sat_simplify.specs.SamePlaces.{AreMetAlike, HasNoHigherVariable};
ghost use Rattle.sat_simplify.specs.CompactNumbers.{KeepsMarks, IsMarked, HasMarked, gap_after, gaps, compacted_literal, compacted_clause};
ghost use Rattle.sat_simplify.specs.CompactNumbers.{compacted_list};

use base_values::OutOfMemory;
use sat_clauses::clause::{Clause, ClauseList};
use sat_clauses::lit::Lit;
use smallvec::SmallVec;
use std::alloc::Global;

// Makes a place for each number up to this one.
#[tactic(auto, using(crate::proofs::CompactMarks::growing_rules))]
fn make_room(marks: &mut Vec<bool>, i: usize) -> Result<(), OutOfMemory>
    ensures room { OnOk result (i < length marks.new.items) }
    ensures keeps { OnOk result (KeepsMarks marks.old.items marks.new.items) }
{
    while marks.len() <= i {
        marks.push(false)?;
    }
    Ok(())
}

/// Marks a number.
#[tactic(auto, using(crate::proofs::CompactMarks::setting_rules))]
pub fn mark(marks: &mut Vec<bool>, i: usize) -> Result<(), OutOfMemory>
    ensures has { OnOk result (IsTrue (slice_index_or marks.new.items i false)) }
    ensures keeps { OnOk result (KeepsMarks marks.old.items marks.new.items) }
{
    make_room(marks, i)?;
    marks[i] = true;
    Ok(())
}

// Marks the variable of a literal if it is above the places.
#[tactic(auto, using(crate::proofs::CompactMarks::marks_itself))]
fn mark_literal(marks: &mut Vec<bool>, places: u64, lit: Lit) -> Result<(), OutOfMemory>
    ensures has { OnOk result (IsMarked places marks.new.items lit) }
    ensures keeps { OnOk result (KeepsMarks marks.old.items marks.new.items) }
{
    if lit.var() <= places {
        return Ok(());
    }
    mark(marks, (lit.var() - places - 1) as usize)
}

/// Marks the variables of a clause.
#[tactic(auto, using(crate::proofs::CompactMarks::marked_steps))]
pub fn mark_clause(marks: &mut Vec<bool>, places: u64, lits: &[Lit]) -> Result<(), OutOfMemory>
    ensures { OnOk result (HasMarked places marks.old.items marks.new.items lits.now) }
{
    for lit in lits {
        mark_literal(marks, places, *lit)?;
    }
    Ok(())
}

// Which variables above the places stand in a list.
#[tactic(auto, using(crate::proofs::CompactMarks::listed_steps))]
fn marks_of(alloc: Global, places: u64, list: &[Clause]) -> Result<Vec<bool>, OutOfMemory>
    ensures { IfOk result (λ marks. All (All (IsMarked places marks.items)) list.now) }
{
    let mut marks = Vec::new(alloc);
    for clause in list {
        mark_clause(&mut marks, places, clause.lits())?;
    }
    Ok(marks)
}

// How many are not marked, up to one more.
fn after(gap: u64, is_marked: bool) -> u64
    requires { gap < 2 ^ 63 }
    ensures { result ≡ gap_after gap is_marked }
{
    if is_marked { gap } else { gap + 1 }
}

/// For each number how many below it are not marked.
pub fn gaps_of(alloc: Global, marks: &[bool]) -> Result<Vec<u64>, OutOfMemory>
    ensures { IfOk result (λ all. all.items ≡ gaps 0 marks.now) }
{
    let mut all = Vec::new(alloc);
    let mut gap: u64 = 0;
    for is_marked in marks {
        all.push(gap)?;
        gap = after(gap, *is_marked);
    }
    Ok(all)
}

// The literal, its variable brought down if it is above the places.
fn literal_of(places: u64, gaps: &[u64], lit: Lit) -> Lit
    ensures { result ≡ compacted_literal places gaps.now lit }
{
    let var = lit.var();
    if var <= places {
        return lit;
    }
    let i = var - places - 1;
    let gap = match gaps.get(i as usize) {
        Some(gap) => *gap,
        None => 0,
    };
    Lit::new(places + 1 + i.saturating_sub(gap), lit.is_negated())
}

/// The clause of these literals, their variables brought down.
pub fn clause_of(
    alloc: Global,
    places: u64,
    gaps: &[u64],
    lits: &[Lit],
) -> Result<Clause, OutOfMemory>
    ensures { IfOk result (λ c. c ≡ compacted_clause places gaps.now lits.now) }
{
    let mut all: SmallVec<Lit, 12> = SmallVec::new(alloc);
    for lit in lits {
        all.push(literal_of(places, gaps, *lit))?;
    }
    Clause::from_lits(alloc, all.as_slice())
}

// The list, its variables brought down.
fn list_of(
    alloc: Global,
    places: u64,
    gaps: &[u64],
    list: &[Clause],
) -> Result<ClauseList, OutOfMemory>
    ensures { IfOk result (λ new. new ≡ compacted_list places gaps.now list.now) }
{
    let mut new = ClauseList::new(alloc);
    for clause in list {
        new.push(clause_of(alloc, places, gaps, clause.lits())?)?;
    }
    Ok(new)
}

/// The list, with its variables above the places numbered from there on without gaps.
#[tactic(auto, using(crate::proofs::CompactLaws::compact_same, crate::proofs::CompactLaws::compact_low))]
pub fn compact(alloc: Global, places: u64, list: &[Clause]) -> Result<ClauseList, OutOfMemory>
    ensures same { IfOk result (λ new. AreMetAlike places list.now new) }
    ensures low { IfOk result (λ new. HasNoHigherVariable list.now new) }
{
    let marks = marks_of(alloc, places, list)?;
    let gaps = gaps_of(alloc, marks.as_slice())?;
    list_of(alloc, places, gaps.as_slice(), list)
}
