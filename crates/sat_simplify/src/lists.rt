//! From a list of clauses to a clause base, and back.
//!
//! Entered are all clauses that are no tautologies, each literal once; listed is what stands.
ghost use Rattle.std.specs.Prelude.{◌≡◌, ◌++◌, IfOk, OnOk, Some, map};
ghost use Rattle.std.specs.Option.{option_to_list};
ghost use Rattle.sat_simplify.specs.Slots.{has_clause, standing as stands};
ghost use Rattle.sat_simplify.specs.Resolution.{each_once as once};
ghost use Rattle.sat_simplify.specs.Elimination.{unless_tautology};

use crate::literals::{each_once, is_tautology};
use base_values::OutOfMemory;
use sat_clauses::clause::{Clause, ClauseList};
use sat_clauses::lit::Lit;
use std::alloc::Global;

/// A clause with each literal once, or none if it is a tautology.
pub fn entered(alloc: Global, lits: &[Lit]) -> Result<Option<Clause>, OutOfMemory>
    ensures { IfOk result (λ one. option_to_list one ≡ unless_tautology (once lits.now)) }
{
    let clause = each_once(alloc, lits)?;
    if is_tautology(clause.lits()) {
        return Ok(None);
    }
    Ok(Some(clause))
}

// Appends a slot's clause.
fn push_standing(list: &mut ClauseList, slot: &Option<Clause>) -> Result<(), OutOfMemory>
    ensures { OnOk result (list.new ≡ list.old ++ option_to_list slot.now) }
{
    match slot {
        Some(clause) => list.push_lits(clause.lits()),
        None => Ok(()),
    }
}

// Whether a clause stands in a slot.
fn is_taken(slot: &Option<Clause>) -> bool
    ensures { result ≡ has_clause slot.now }
{
    match slot {
        Some(_clause) => true,
        None => false,
    }
}

/// Lets the slots without a clause go, and the memory that they took.
pub fn close_up(slots: &mut Vec<Option<Clause>>)
    ensures { stands slots.new.items ≡ stands slots.old.items }
{
    slots.retain(|slot| is_taken(slot));
    slots.shrink_to_fit();
}

/// The clauses that stand.
#[tactic(auto, using(crate::proofs::SlotSteps::standing_more))]
pub fn standing(alloc: Global, slots: &[Option<Clause>]) -> Result<ClauseList, OutOfMemory>
    ensures { IfOk result (λ list. list ≡ stands slots.now) }
{
    let mut list = ClauseList::new(alloc);
    for slot in slots {
        push_standing(&mut list, slot)?;
    }
    Ok(list)
}
