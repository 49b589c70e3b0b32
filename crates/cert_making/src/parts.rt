//! The three derivations of a certificate: that its invariant holds first, that every step keeps it, and that it excludes the
//! bad states.
//!
//! [`derive_parts`] makes them, each from the clauses given for its part to the clauses that the part is to show. For the second the
//! invariant is to be shown of the state next, so [`moved`] writes its clauses over the bits of that state. Of clauses that are no
//! invariant there are none.
ghost use Rattle.std.specs.Prelude.{◌≡◌, ◌≢◌, ◌++◌, [], ◌∷◌, List, map, All, IfOk, IfSome, None};
ghost use Rattle.sat_clauses.specs.Literal.{Literal};
ghost use Rattle.sat_clauses.specs.declared.system.System.{System as SystemLists};
ghost use Rattle.sat_clauses.specs.Hints.{HasNoOpposites};
ghost use Rattle.sat_clauses.specs.States.{moved_on, IsOverBits, IsInvariant};
ghost use Rattle.cert_laws.specs.CertificateText.{AreWritable};
ghost use Rattle.cert_making.specs.Queries.{IsSoFar};
ghost use Rattle.cert_making.specs.PartDerivations.{AreDerived};

use crate::derive::derive;
use base_values::OutOfMemory;
use sat_adviser::Panel;
use sat_clauses::System;
use sat_clauses::clause::{Clause, ClauseList};
use sat_clauses::lit::Lit;
use sat_clauses::recorder::StepsList;
use std::alloc::Global;

/// The derivations of a certificate.
#[derive(Drop)]
pub struct PartDerivations {
    /// That the invariant holds in each first state.
    pub first: StepsList,
    /// That every step keeps it.
    pub next: StepsList,
    /// That it holds in no bad state.
    pub bad: StepsList,
}

/// The clauses of two lists.
pub(crate) fn both(list: &ClauseList, other: &ClauseList) -> Result<ClauseList, OutOfMemory>
    ensures { IfOk result (λ all. all ≡ list.now ++ other.now) }
{
    let mut all = list.copy()?;
    for clause in other.as_slice() {
        all.push(clause.copy()?)?;
    }
    Ok(all)
}

// A clause, over the bits of the state next.
fn moved_clause(alloc: Global, system: &System, clause: &Clause) -> Result<Clause, OutOfMemory>
    requires { IsOverBits system.now clause.now }
    ensures { IfOk result (λ moved. moved ≡ map (moved_on system.now.state_bits) clause.now) }
{
    let bits = u64::from(system.state_bits);
    let mut lits = Vec::new(alloc);
    for lit in clause.lits() {
        lits.push(Lit::new(lit.var() + bits, lit.is_negated()))?;
    }
    Clause::from_lits(alloc, lits.as_slice())
}

/// The clauses, over the bits of the state next.
pub(crate) fn moved(
    alloc: Global,
    system: &System,
    list: &ClauseList,
) -> Result<ClauseList, OutOfMemory>
    requires { All (IsOverBits system.now) list.now }
    ensures { IfOk result (λ moved. moved ≡ map (map (moved_on system.now.state_bits)) list.now) }
{
    let mut moved = ClauseList::new(alloc);
    for clause in list.as_slice() {
        moved.push(moved_clause(alloc, system, clause)?)?;
    }
    Ok(moved)
}

// That the clauses hold in each first state.
fn derive_first(
    alloc: Global,
    system: &System,
    invariant: &ClauseList,
    panel: &mut Panel,
) -> Result<Option<StepsList>, OutOfMemory>
    requires over_bits { All (IsOverBits system.now) invariant.now }
    requires apart { All HasNoOpposites invariant.now }
    ensures derived { IfOk result (λ r. IfSome r (λ steps. IsSoFar system.now.first steps invariant.now)) }
    ensures writable { IfOk result (λ r. IfSome r AreWritable) }
    ensures proof { IfOk result (λ r. (bad : List (List Literal)) → IsInvariant system.now bad invariant.now → r ≢ None) }
{
    let steps = derive(alloc, &system.first, invariant, panel)?;
    Ok(steps)
}

// That every step keeps them.
fn derive_next(
    alloc: Global,
    system: &System,
    invariant: &ClauseList,
    panel: &mut Panel,
) -> Result<Option<StepsList>, OutOfMemory>
    requires over_bits { All (IsOverBits system.now) invariant.now }
    requires apart { All HasNoOpposites invariant.now }
    ensures derived { IfOk result (λ r. IfSome r (λ steps. IsSoFar (system.now.step
        ++ invariant.now) steps (map (map (moved_on system.now.state_bits)) invariant.now))) }
    ensures writable { IfOk result (λ r. IfSome r AreWritable) }
    ensures proof { IfOk result (λ r. (bad : List (List Literal)) → IsInvariant system.now bad invariant.now → r ≢ None) }
{
    let givens = both(&system.step, invariant)?;
    let goals = moved(alloc, system, invariant)?;
    let steps = derive(alloc, &givens, &goals, panel)?;
    Ok(steps)
}

/// That clauses hold in no bad state: the steps to the empty clause.
pub(crate) fn derive_bad(
    alloc: Global,
    invariant: &ClauseList,
    bad: &ClauseList,
    panel: &mut Panel,
) -> Result<Option<StepsList>, OutOfMemory>
    ensures derived { IfOk result (λ r. IfSome r (λ steps. IsSoFar (bad.now ++ invariant.now) steps ([] ∷ []))) }
    ensures writable { IfOk result (λ r. IfSome r AreWritable) }
    ensures proof { IfOk result (λ r. (system : SystemLists) → All (IsOverBits system) invariant.now →
        IsInvariant system bad.now invariant.now → r ≢ None) }
{
    let givens = both(bad, invariant)?;
    let mut goals = ClauseList::new(alloc);
    goals.push(Clause::from_lits(alloc, &[])?)?;
    let steps = derive(alloc, &givens, &goals, panel)?;
    Ok(steps)
}

/// The derivations of clauses as an invariant of a system that excludes the bad states of a list. Each part's steps follow from what is
/// given for it, cover what it is to show, and can be written. There are none only where the clauses are no such invariant.
pub fn derive_parts(
    alloc: Global,
    system: &System,
    invariant: &ClauseList,
    bad: &ClauseList,
    panel: &mut Panel,
) -> Result<Option<PartDerivations>, OutOfMemory>
    requires over_bits { All (IsOverBits system.now) invariant.now }
    requires apart { All HasNoOpposites invariant.now }
    ensures derived { IfOk result (λ r. IfSome r (AreDerived system.now invariant.now bad.now)) }
    ensures proof { IfOk result (λ r. IsInvariant system.now bad.now invariant.now → r ≢ None) }
{
    let Some(first) = derive_first(alloc, system, invariant, panel)? else {
        return Ok(None);
    };
    let Some(next) = derive_next(alloc, system, invariant, panel)? else {
        return Ok(None);
    };
    let Some(last) = derive_bad(alloc, invariant, bad, panel)? else {
        return Ok(None);
    };
    Ok(Some(PartDerivations {
        first,
        next,
        bad: last,
    }))
}
