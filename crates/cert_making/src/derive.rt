//! The derivation of one part of a certificate.
//!
//! [`derive`] is the main function. It has one search that keeps all its steps: the clauses given are added, once, and then it is
//! asked for each goal in turn and learns the clauses of its steps. Between the goals stands `IsPartWay`: what the search has, and that
//! the steps so far cover the goals so far. Where a goal does not follow there is no derivation.
ghost use Rattle.std.specs.Prelude.{◌≡◌, ◌≢◌, ◌+◌, ◌<◌, ◌≤◌, ◌^◌, true, false, List, [], length, take, slice_get, All, IfOk, IfSome, Some, None, IsTrue};
ghost use Rattle.sat_clauses.specs.Literal.{Literal};
ghost use Rattle.sat_clauses.specs.Assignment.{Assignment};
ghost use Rattle.sat_solver.specs.declared.solve.Verdict.TheVariants.{Sat, Unsat};
ghost use Rattle.sat_clauses.specs.Models.{FollowsFrom};
ghost use Rattle.sat_clauses.specs.Derivation.{IsUpTo};
ghost use Rattle.sat_clauses.specs.Hints.{HasNoOpposites};
ghost use Rattle.cert_laws.specs.Acceptance.{highest_in, highest};
ghost use Rattle.cert_laws.specs.CertificateText.{AreWritable};
ghost use Rattle.cert_laws.specs.Derivations.{asked};
ghost use Rattle.cert_making.specs.Queries.{IsSoFar};
ghost use Rattle.cert_making.specs.PartDerivations.{IsPartWay, HasPositive};

use base_values::OutOfMemory;
use sat_adviser::{News, Panel};
use sat_clauses::clause::ClauseList;
use sat_clauses::lit::Lit;
use sat_clauses::recorder::{KeepAll, StepsList};
use sat_solver::kept::Search;
use sat_solver::solve::Verdict;
use std::alloc::Global;

// The first number that no variable of a search has.
const END_OF_VARIABLES: u64 = 4611686018427387904;

// The first number that no count of a certificate's text has.
const END_OF_COUNTS: u64 = 9223372036854775808;

// The highest variable of literals, at least 1.
fn highest_of(lits: &[Lit]) -> u64
    ensures { result ≡ highest_in lits.now }
{
    let mut most = 1;
    for lit in lits {
        most = most.max(lit.var());
    }
    most
}

/// The highest variable of clauses, at least 1.
pub fn highest(list: &ClauseList) -> u64
    ensures { result ≡ highest list.now }
{
    let mut most = 1;
    for clause in list.as_slice() {
        most = most.max(highest_of(clause.lits()));
    }
    most
}

// What a search is asked to derive a clause: the opposites of its literals up to the highest variable.
fn question(alloc: Global, vars: u64, goal: &[Lit]) -> Result<Vec<Lit>, OutOfMemory>
    ensures { IfOk result (λ lits. lits.items ≡ asked vars goal.now) }
{
    let mut lits = Vec::new(alloc);
    for lit in goal {
        if lit.var() <= vars {
            lits.push(lit.neg())?;
        }
    }
    Ok(lits)
}

// A part of a certificate: goals to be derived from clauses given, whose highest variable is this.
#[derive(Drop)]
struct Part<'a> {
    givens: &'a ClauseList,
    goals: &'a ClauseList,
    vars: u64,
    ghost small: { highest givens.now < 2 ^ 62 },
    ghost highest: { vars ≡ highest givens.now },
    ghost in_range: { All (All (IsUpTo vars)) givens.now },
    ghost apart: { All HasNoOpposites goals.now },
}

// A search over the clauses given, which keeps all its steps.
fn search_over(alloc: Global, part: &Part) -> Result<Search<KeepAll>, OutOfMemory>
    ensures begun { IfOk result (λ s. IsPartWay part.now.givens.now s.kept s.recorder []) }
    ensures cores { IfOk result (λ s. s.cores ≡ true) }
{
    let mut search = Search::new(alloc, part.vars, KeepAll::new(alloc))?;
    for clause in part.givens.as_slice() {
        search.add(clause)?;
    }
    Ok(search)
}

/// Tells the panel how many goals of a certificate are derived, of so many.
fn tell(derived: usize, count: usize, panel: &mut Panel)
    requires { count < 2 ^ 64 }
{
    let news = News::Goal { derived, count };
    panel.hears(&news);
}

// Whether a question has no solution.
fn is_refuted(verdict: &Verdict) -> bool
    ensures refuted { result ≡ true → (core : List Literal) × (verdict.now ≡ Unsat core) }
    ensures solved { result ≡ false → (values : Assignment) × (verdict.now ≡ Sat values) }
{
    match verdict {
        Verdict::Unsat(_core) => true,
        Verdict::Sat(_values) => false,
    }
}

// Derives one more goal, where it follows.
fn cover(
    alloc: Global,
    part: &Part,
    place: usize,
    search: &mut Search<KeepAll>,
    panel: &mut Panel,
) -> Result<bool, OutOfMemory>
    requires place { place < length part.now.goals.now }
    requires cores { search.old.cores ≡ true }
    requires before { IsPartWay part.now.givens.now search.old.kept search.old.recorder (take place part.now.goals.now) }
    ensures way { IfOk result (λ covered. covered ≡ true →
        IsPartWay part.now.givens.now search.new.kept search.new.recorder (take (place + 1) part.now.goals.now)) }
    ensures follows { IfOk result (λ covered. All (FollowsFrom part.now.givens.now) part.now.goals.now → covered ≡ true) }
    ensures cores { search.new.cores ≡ true }
{
    let assumed = question(alloc, part.vars, part.goals.at(place).lits())?;
    tell(place, part.goals.len(), panel);
    let verdict = search.ask(assumed.as_slice(), panel)?;
    Ok(is_refuted(&verdict))
}

// Sees that the variables of literals are positive.
fn see_positive(lits: &[Lit])
    ensures { All (λ (l : Literal). 1 ≤ l.var) lits.now }
{
    for lit in lits {
        // (what `var` says)
        let _var = lit.var();
    }
}

// Sees that the variables of the steps' clauses are positive.
fn see_all_positive(steps: &StepsList)
    ensures { All HasPositive steps.now }
{
    let mut i = 0;
    while i < steps.len() {
        see_positive(steps.at(i).clause.lits());
        i += 1;
    }
}

// The steps of a derivation that is done. A derivation of 2^63 or more clauses has no text, and there is no memory for one.
fn finished(part: &Part, search: &Search<KeepAll>) -> Result<StepsList, OutOfMemory>
    requires { IsPartWay part.now.givens.now search.now.kept search.now.recorder part.now.goals.now }
    ensures derived { IfOk result (λ steps. IsSoFar part.now.givens.now steps part.now.goals.now) }
    ensures writable { IfOk result (λ steps. AreWritable steps) }
{
    if search.count() as u64 >= END_OF_COUNTS {
        return Err(OutOfMemory);
    }
    let made = search.recorder().steps();
    see_all_positive(made);
    let steps = made.copy()?;
    Ok(steps)
}

/// Steps that each follow from the clauses given and the steps before them, and cover each goal: a given clause or a step's has
/// literals of the goal alone. They are made by one search over the clauses given and the steps so far, which is asked for each goal and
/// keeps all its steps. There are none only where a goal does not follow. Where a variable is 2^62 or more, it answers want of memory.
pub fn derive(
    alloc: Global,
    givens: &ClauseList,
    goals: &ClauseList,
    panel: &mut Panel,
) -> Result<Option<StepsList>, OutOfMemory>
    requires apart { All HasNoOpposites goals.now }
    ensures derived { IfOk result (λ r. IfSome r (λ steps. IsSoFar givens.now steps goals.now)) }
    ensures writable { IfOk result (λ r. IfSome r AreWritable) }
    ensures follow { IfOk result (λ r. All (FollowsFrom givens.now) goals.now → r ≢ None) }
{
    let vars = highest(givens);
    if vars >= END_OF_VARIABLES {
        return Err(OutOfMemory);
    }
    panel.ready(vars)?;
    let part = Part {
        givens,
        goals,
        vars,
    };
    let mut search = search_over(alloc, &part)?;
    for place in 0..goals.len() {
        let is_covered = cover(alloc, &part, place, &mut search, panel)?;
        if !is_covered {
            return Ok(None);
        }
    }
    let steps = finished(&part, &search)?;
    Ok(Some(steps))
}
