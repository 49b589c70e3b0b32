//! A list as it goes into the search: made simpler, and with its own variables above the places.
//!
//! The variables 0 and 1 of a list are its own, as those above states and inputs are. Numbered apart from these places, they are
//! renamed where the list goes into a search with others. [`simpler_apart`] is the main function: the search needs only what a list
//! says of the places, so it gets a simpler one that says the same (`MeetAlike` of `specs/GuardedSearch.antt`).
ghost use Rattle.std.specs.Prelude.{◌≡◌, ◌<◌, ◌^◌, IfOk, All};
ghost use Rattle.cut_frames.specs.Condition.{IsLow, IsNear};
ghost use Rattle.cut_frames.specs.GuardedSearch.{MeetAlike};
ghost use Rattle.cut_frames.specs.OwnVariables.{apart_literal, apart_clause, apart_list};

use base_values::OutOfMemory;
use sat_clauses::clause::{Clause, ClauseList};
use sat_clauses::lit::Lit;
use sat_simplify::simplified;
use std::alloc::Global;

/// A literal with its variable apart from the places.
fn literal_apart(places: u64, lit: Lit) -> Lit
    requires places { places < 2 ^ 31 }
    requires low { IsLow lit }
    ensures { result ≡ apart_literal places lit }
{
    let var = lit.var();
    if var < 2 {
        return Lit::new(var + places + 1, lit.is_negated());
    }
    if var <= places {
        return lit;
    }
    Lit::new(var + 2, lit.is_negated())
}

/// A clause with its variables apart from the places.
fn clause_apart(alloc: Global, places: u64, lits: &[Lit]) -> Result<Clause, OutOfMemory>
    requires places { places < 2 ^ 31 }
    requires low { All IsLow lits.now }
    ensures { IfOk result (λ c. c ≡ apart_clause places lits.now) }
{
    let mut apart = Vec::new(alloc);
    for lit in lits {
        apart.push(literal_apart(places, *lit))?;
    }
    Clause::from_lits(alloc, apart.as_slice())
}

/// A list with its variables apart from the places.
fn list_apart(alloc: Global, places: u64, list: &[Clause]) -> Result<ClauseList, OutOfMemory>
    requires places { places < 2 ^ 31 }
    requires low { All (All IsLow) list.now }
    ensures { IfOk result (λ l. l ≡ apart_list places list.now) }
{
    let mut apart = ClauseList::new(alloc);
    for clause in list {
        apart.push(clause_apart(alloc, places, clause.lits())?)?;
    }
    Ok(apart)
}

/// A list that says the same of the places and is simpler, with its variables apart from the places.
#[tactic(auto, using(crate::proofs::ApartLaws::simpler_near, crate::proofs::ApartLaws::simpler_alike))]
pub fn simpler_apart(alloc: Global, places: u64, list: &[Clause]) -> Result<ClauseList, OutOfMemory>
    requires places { places < 2 ^ 31 }
    requires low { All (All IsLow) list.now }
    ensures near { IfOk result (λ l. All (All IsNear) l) }
    ensures alike { IfOk result (λ l. MeetAlike places (apart_list places list.now) l) }
{
    let simpler = simplified(alloc, places, list)?;
    list_apart(alloc, places, simpler.as_slice())
}
