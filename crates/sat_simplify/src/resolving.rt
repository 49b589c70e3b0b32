//! All resolvents of two lists of clauses on one literal, as long as they are few and short.
//!
//! [`resolve_all`] is the main function. It gives up where there are more resolvents than clauses, or where one is
//! longer than [`LONGEST`]: a variable is eliminated only where that makes the list no longer.
ghost use Rattle.std.specs.Prelude.{◌≡◌, ◌++◌, IfOk, OnOk, IfSome, true};
ghost use Rattle.sat_simplify.specs.Elimination.{resolvents, resolvents_with, unless_tautology};

use crate::literals::{is_tautology, resolvent};
use base_values::OutOfMemory;
use sat_clauses::clause::{Clause, ClauseList};
use sat_clauses::lit::Lit;
use std::alloc::Global;

/// The most literals of a resolvent.
pub const LONGEST: usize = 10;

/// Appends the clause unless it is a tautology; answers whether the list has at most so many clauses then, and the clause
/// is not too long.
pub fn push_open(list: &mut ClauseList, clause: Clause, most: usize) -> Result<bool, OutOfMemory>
    ensures { OnOk result (list.new ≡ list.old ++ unless_tautology clause) }
{
    if is_tautology(clause.lits()) {
        return Ok(true);
    }
    let is_short = clause.lits().len() <= LONGEST;
    list.push(clause)?;
    Ok(is_short && list.len() <= most)
}

// Appends the resolvents of a clause with each of the others, unless they get too many or too long.
#[tactic(auto, using(crate::proofs::SlotSteps::resolved_steps))]
fn resolve_with(
    alloc: Global,
    list: &mut ClauseList,
    lit: Lit,
    with: &[Lit],
    against: &[Clause],
    most: usize,
) -> Result<bool, OutOfMemory>
    ensures { IfOk result (λ fits. fits ≡ true → list.new ≡ list.old ++ resolvents_with lit against.now with.now) }
{
    for other in against {
        let clause = resolvent(alloc, lit, with, other.lits())?;
        if !push_open(list, clause, most)? {
            return Ok(false);
        }
    }
    Ok(true)
}

#[tactic(auto, using(crate::proofs::SlotSteps::resolvents_more))]
/// All resolvents of the clauses of a literal with those of its opposite that are no tautologies, or `None` where they
/// are more than these clauses or than `most`, or one is too long.
pub fn resolve_all(
    alloc: Global,
    lit: Lit,
    with: &[Clause],
    against: &[Clause],
    most: usize,
) -> Result<Option<ClauseList>, OutOfMemory>
    ensures { IfOk result (λ o. IfSome o (λ list. list ≡ resolvents lit with.now against.now)) }
{
    let most = with.len().saturating_add(against.len()).min(most);
    let mut list = ClauseList::new(alloc);
    for clause in with {
        if !resolve_with(alloc, &mut list, lit, clause.lits(), against, most)? {
            return Ok(None);
        }
    }
    Ok(Some(list))
}
