//! Clauses that a derivation is to show.
//!
//! An invariant is to hold first as it stands, to be kept over the bits of the state next, for which [`moved_clause`]
//! writes one clause, and to exclude the bad states by the empty clause, which is the list of [`only_empty`].
ghost use Rattle.std.specs.Prelude.{◌≡◌, ◌+◌, ◌<◌, ◌≤◌, IfOk, All, [], ◌∷◌, map};
ghost use Rattle.sat_clauses.specs.States.{moved_on};

use base_values::{Items, OutOfMemory};
use sat_clauses::clause::ClauseList;
use sat_clauses::lit::Lit;
use std::alloc::Global;

/// The list of the clause without literals.
pub fn only_empty(alloc: Global) -> Result<ClauseList, OutOfMemory>
    ensures { IfOk result (λ list. list ≡ [] ∷ []) }
{
    let mut list = ClauseList::new(alloc);
    list.push_lits(&[])?;
    Ok(list)
}

/// The literals of a clause over state bits now, of the same bits of the state next.
pub(crate) fn moved_clause(
    alloc: Global,
    lits: &[Lit],
    bits: u32,
) -> Result<Items<Lit>, OutOfMemory>
    requires { All (λ l. (2 ≤ l.var) × (l.var < bits + 2)) lits.now }
    ensures { IfOk result (λ list. list ≡ map (moved_on bits) lits.now) }
{
    let mut list = Items::new(alloc);
    for lit in lits {
        list.push(Lit::new(lit.var() + u64::from(bits), lit.is_negated()))?;
    }
    Ok(list)
}
