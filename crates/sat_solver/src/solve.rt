//! The search: propagate, learn and go back, or decide.
//!
//! [`solve`] is the main function, a loop over `advance`, which makes one step. Each step either answers
//! or makes the trail rise in an order that has an end. `IsRunning` is what holds between two steps: each
//! literal of the trail had a reason when it was made true, and the store has followed the trail's first
//! literals. `Keeps` is what no step changes, and `GoesOn` what each gives where memory is not wanted: to the
//! clauses only steps that follow by their hints were appended, and the search is running again. Beside
//! these, `IsFurther` of two trails says that the second stands higher, and `IsCore` of a clause that it
//! refutes the assumptions. Such a clause has a literal for each assumption that it needs and would be visited ever
//! after, so it is one of the clauses only where `cores` holds.
ghost use Rattle.std.specs.Prelude.{◌≡◌, ◌≢◌, ◌↔◌, IsTrue, ℕ, ◌+◌, ◌<◌, ◌≤◌, true, false, [], ◌∷◌, ◌++◌, length, All, Contains};
ghost use Rattle.std.specs.Prelude.{IfOk, OnOk, OnErr, Some, None, slice_index_or};
ghost use Rattle.sat_clauses.specs.Assignment.{IsInRange, value_of};
ghost use Rattle.sat_clauses.specs.Derivation.{IsUpTo};
ghost use Rattle.sat_clauses.specs.Hints.{truth_at};
ghost use Rattle.sat_solver.specs.Trail.{IsLawful, IsIdle};
ghost use Rattle.sat_solver.specs.Search.{Extends, CanSolve, HasAdvised, HasKept, IsReason};
ghost use Rattle.sat_solver.specs.ClauseFindings.{IsUseful};
ghost use Rattle.sat_solver.specs.LearnedClauses.{IsFound};
ghost use Rattle.sat_solver.specs.SearchSteps.{IsRunning, Keeps, HasGrown, GoesOn};
ghost use Rattle.sat_solver.specs.Verdict.{IsAmong, IsAt, IsCore, IsFurther, IsLesson, IsAdvance, IsVerdict};

use crate::analysis::analyse;
use crate::arena::Arena;
use crate::choose::choose_from;
use crate::clauses::{fill, len, lits};
use crate::complete::complete;
use crate::find::{FoundClause, Pick, find, next_pick};
use crate::follow::follow;
use crate::lesson::{keep_lesson, take_core};
use crate::propagate::propagate;
use crate::question::SearchQuestion;
use crate::trail::{Reason, Trail};
use base_values::OutOfMemory;
use sat_adviser::Panel;
use sat_clauses::assign::Assign;
use sat_clauses::clause::{Clause, ClauseList, Truth};
use sat_clauses::hints::has_no_opposites;
use sat_clauses::lit::{Lit, are_up_to};
use sat_clauses::recorder::Recorder;
use sat_clauses::store::Store;
use std::alloc::Global;

// How often a search restarts at most.
const MOST_RESTARTS: u64 = 64;

// How many clauses it learns before it restarts.
const LESSONS: usize = 100;

/// What a search answers.
#[derive(Drop)]
pub enum Verdict {
    /// This assignment makes all clauses and assumptions true.
    Sat(Assign),
    /// This clause of negated assumptions follows.
    Unsat(Clause),
}

/// Searches for an assignment of the variables from 1 to `vars` that makes the clauses and the assumptions
/// true. `Sat` has such an assignment. `Unsat` has a clause of negated assumptions that is true in every
/// model of the clauses: a given clause, or that of a step that was kept in this call. With either answer
/// each step that was kept follows from the clauses and the steps before it.
///
/// This is conflict-driven clause learning: propagate units; at a false clause learn the clause of the
/// first unique implication point, jump back to where it is unit, and go on; else make the next
/// assumption true, or a literal that the panel chooses, which is made ready for the variables first. Each
/// learned clause is kept with its hints and told to the panel. The search restarts at most 64 times, and
/// each restart rotates the panel. It ends
/// since between restarts the trail, read level by level, only rises.
pub fn solve<R: Recorder>(
    alloc: Global,
    clauses: &ClauseList,
    vars: u64,
    assumptions: &[Lit],
    panel: &mut Panel,
    recorder: &mut R,
) -> Result<Verdict, OutOfMemory>
    requires { CanSolve vars clauses.now assumptions.now }
    ensures verdict { IfOk result
        (λ verdict. IsVerdict vars clauses.now assumptions.now (R.kept recorder.old) (R.kept recorder.new) verdict) }
    ensures kept { IfOk result (λ _. HasKept vars clauses.now (R.kept recorder.old) (R.kept recorder.new)) }
    ensures ready { OnOk result (panel.new.vars ≡ vars) }
    ensures restarts { panel.new.rotated ≤ panel.old.rotated + 64 }
{
    let mut store = Arena::new(alloc, vars)?;
    fill(&mut store, clauses)?;
    panel.ready(vars)?;
    let verdict = solve_in(alloc, &mut store, assumptions, panel, recorder)?;
    Ok(verdict)
}

/// [`solve`] over the clauses of a store with an empty trail. At exit the store has its clauses, then those
/// of the steps that were kept in this call, and an empty trail.
pub fn solve_in<S: Store, R: Recorder>(
    alloc: Global,
    store: &mut S,
    assumptions: &[Lit],
    panel: &mut Panel,
    recorder: &mut R,
) -> Result<Verdict, OutOfMemory>
    requires can_solve { CanSolve (S.held store.old).vars (S.held store.old).clauses assumptions.now }
    requires empty { (S.held store.old).trail ≡ [] }
    ensures verdict { IfOk result (λ verdict. IsVerdict (S.held store.old).vars
        (S.held store.old).clauses assumptions.now (R.kept recorder.old) (R.kept recorder.new) verdict) }
    ensures grows { IfOk result (λ _. HasGrown (S.held store.old) (S.held store.new) (R.kept recorder.old) (R.kept recorder.new)) }
    ensures err { OnErr result (Extends (S.held store.old).vars (S.held store.old).clauses (S.held store.new).clauses) }
    ensures listed { IfOk result (IsAmong (S.held store.new).clauses) }
    ensures trail { (S.held store.new).trail ≡ [] }
    ensures advised { HasAdvised panel.old.vars panel.old.rotated panel.new.vars panel.new.rotated }
{
    let mut trail = Trail::with_vars(alloc, store.vars())?;
    let question = SearchQuestion {
        alloc,
        assumptions,
        cores: true,
    };
    let verdict = solve_on(&mut trail, store, question, panel, recorder)?;
    Ok(verdict)
}

/// [`solve_in`] with a trail without literals, which it is again where there is an answer. A clause that refutes
/// the assumptions is kept with the others where `cores` holds; else it is answered alone, and the empty clause
/// is still one of them.
pub(crate) fn solve_on<S: Store, R: Recorder>(
    trail: &mut Trail,
    store: &mut S,
    question: SearchQuestion<'_>,
    panel: &mut Panel,
    recorder: &mut R,
) -> Result<Verdict, OutOfMemory>
    requires can_solve { CanSolve (S.held store.old).vars (S.held store.old).clauses question.assumptions.now }
    requires idle { IsIdle (S.held store.old).vars trail.old }
    ensures found { IfOk result (IsFound question.entry.cores question.entry.assumptions.now (S.held store.old).vars
        (S.held store.old).clauses (S.held store.new).clauses (R.kept recorder.old) (R.kept recorder.new) trail.new) }
    ensures err { OnErr result (Extends (S.held store.old).vars (S.held store.old).clauses (S.held store.new).clauses) }
    ensures vars { IfOk result (λ _. (S.held store.new).vars ≡ (S.held store.old).vars) }
    ensures trail { (S.held store.new).trail ≡ [] }
    ensures advised { HasAdvised panel.old.vars panel.old.rotated panel.new.vars panel.new.rotated }
{
    let answer = search(trail, store, question, panel, recorder);
    store.undo(0);
    answer
}

// The search over a store, with a trail without literals, which it is again where there is an answer.
fn search<S: Store, R: Recorder>(
    trail: &mut Trail,
    store: &mut S,
    question: SearchQuestion<'_>,
    panel: &mut Panel,
    recorder: &mut R,
) -> Result<Verdict, OutOfMemory>
    requires can_solve { CanSolve (S.held store.old).vars (S.held store.old).clauses question.assumptions.now }
    requires idle { IsIdle (S.held store.old).vars trail.old }
    ensures found { IfOk result (IsFound question.entry.cores question.entry.assumptions.now (S.held store.old).vars
        (S.held store.old).clauses (S.held store.new).clauses (R.kept recorder.old) (R.kept recorder.new) trail.new) }
    ensures err { OnErr result (Extends (S.held store.old).vars (S.held store.old).clauses (S.held store.new).clauses) }
    ensures vars { IfOk result (λ _. (S.held store.new).vars ≡ (S.held store.old).vars) }
    ensures advised { HasAdvised panel.old.vars panel.old.rotated panel.new.vars panel.new.rotated }
{
    let mut restarts = MOST_RESTARTS;
    let mut limit = len(store).saturating_add(LESSONS);
    'search: loop {
        if restarts > 0 && len(store) >= limit {
            restarts -= 1;
            limit = len(store).saturating_add(LESSONS);
            trail.undo(0);
            panel.rotate();
            continue 'search;
        }
        let answer = advance(trail, store, question, panel, recorder)?;
        match answer {
            Some(verdict) => {
                trail.undo(0);
                return Ok(verdict);
            }
            None => {}
        }
    }
}

// One step of the search.
fn advance<S: Store, R: Recorder>(
    trail: &mut Trail,
    store: &mut S,
    question: SearchQuestion<'_>,
    panel: &mut Panel,
    recorder: &mut R,
) -> Result<Option<Verdict>, OutOfMemory>
    requires running { IsRunning question.assumptions.now (S.held store.old) trail.old }
    ensures keeps { Keeps (S.held store.old) (S.held store.new) }
    ensures goes_on { IfOk result (λ _. GoesOn question.entry.assumptions.now (S.held store.old) (S.held store.new)
        (R.kept recorder.old) (R.kept recorder.new) trail.new) }
    ensures advance { IfOk result
        (λ answer. IsAdvance question.entry.cores (S.held store.new).clauses question.entry.assumptions.now trail.old trail.new answer) }
    ensures ready { panel.new.vars ≡ panel.old.vars }
    ensures rotated { panel.new.rotated ≡ panel.old.rotated }
{
    follow(store, trail)?;
    let found = propagate(store, trail);
    let answer = take_step(trail, store, question, found, panel, recorder)?;
    Ok(answer)
}

// One step of the search, by what propagation found.
fn take_step<S: Store, R: Recorder>(
    trail: &mut Trail,
    store: &mut S,
    question: SearchQuestion<'_>,
    found: FoundClause,
    panel: &mut Panel,
    recorder: &mut R,
) -> Result<Option<Verdict>, OutOfMemory>
    requires running { IsRunning question.assumptions.now (S.held store.old) trail.old }
    requires found { IsUseful (S.held store.old).clauses trail.old.values found }
    ensures keeps { Keeps (S.held store.old) (S.held store.new) }
    ensures goes_on { IfOk result (λ _. GoesOn question.entry.assumptions.now (S.held store.old) (S.held store.new)
        (R.kept recorder.old) (R.kept recorder.new) trail.new) }
    ensures advance { IfOk result
        (λ answer. IsAdvance question.entry.cores (S.held store.new).clauses question.entry.assumptions.now trail.old trail.new answer) }
    ensures ready { panel.new.vars ≡ panel.old.vars }
    ensures rotated { panel.new.rotated ≡ panel.old.rotated }
{
    match found {
        FoundClause::Conflict(number) => resolve(trail, store, question, number, panel, recorder),
        FoundClause::Next(number, lit) => {
            push(trail, store, question, lit, Reason::Implied(number))?;
            Ok(None)
        }
        FoundClause::Nothing => decide(trail, store, question, panel, recorder),
    }
}

// One step of the search where propagation found nothing.
fn decide<S: Store, R: Recorder>(
    trail: &mut Trail,
    store: &mut S,
    question: SearchQuestion<'_>,
    panel: &mut Panel,
    recorder: &mut R,
) -> Result<Option<Verdict>, OutOfMemory>
    requires running { IsRunning question.assumptions.now (S.held store.old) trail.old }
    ensures keeps { Keeps (S.held store.old) (S.held store.new) }
    ensures goes_on { IfOk result (λ _. GoesOn question.entry.assumptions.now (S.held store.old) (S.held store.new)
        (R.kept recorder.old) (R.kept recorder.new) trail.new) }
    ensures advance { IfOk result
        (λ answer. IsAdvance question.entry.cores (S.held store.new).clauses question.entry.assumptions.now trail.old trail.new answer) }
    ensures ready { panel.new.vars ≡ panel.old.vars }
    ensures rotated { panel.new.rotated ≡ panel.old.rotated }
{
    match next_pick(trail, question.assumptions) {
        Pick::Assume(lit, place) => {
            push(trail, store, question, lit, Reason::Assumed(place))?;
            Ok(None)
        }
        Pick::Choose => {
            if let Some(assign) = complete(store, trail)? {
                return Ok(Some(Verdict::Sat(assign)));
            }
            let lit = choose_from(panel, trail.assign(), trail.least());
            push(trail, store, question, lit, Reason::Chosen)?;
            Ok(None)
        }
        Pick::Refuted(lit) => {
            let clause = refute(trail, store, question, lit, panel, recorder)?;
            Ok(Some(Verdict::Unsat(clause)))
        }
        Pick::Done => settle(trail, store, question, panel, recorder),
    }
}

// One step of the search where all variables have values and the assumptions are true. Propagation may
// have missed a clause, so all are looked at.
fn settle<S: Store, R: Recorder>(
    trail: &mut Trail,
    store: &mut S,
    question: SearchQuestion<'_>,
    panel: &mut Panel,
    recorder: &mut R,
) -> Result<Option<Verdict>, OutOfMemory>
    requires running { IsRunning question.assumptions.now (S.held store.old) trail.old }
    requires taken { (x : ℕ) → 0 < x → x < length trail.old.values → slice_index_or trail.old.values x None ≢ None }
    requires assumed { All (λ l. value_of trail.old.values l ≡ Some true) question.assumptions.now }
    ensures keeps { Keeps (S.held store.old) (S.held store.new) }
    ensures goes_on { IfOk result (λ _. GoesOn question.entry.assumptions.now (S.held store.old) (S.held store.new)
        (R.kept recorder.old) (R.kept recorder.new) trail.new) }
    ensures advance { IfOk result
        (λ answer. IsAdvance true (S.held store.new).clauses question.entry.assumptions.now trail.old trail.new answer) }
    ensures ready { panel.new.vars ≡ panel.old.vars }
    ensures rotated { panel.new.rotated ≡ panel.old.rotated }
{
    match find(store, trail.assign()) {
        FoundClause::Conflict(number) => resolve(trail, store, question, number, panel, recorder),
        FoundClause::Next(number, lit) => {
            push(trail, store, question, lit, Reason::Implied(number))?;
            Ok(None)
        }
        FoundClause::Nothing => {
            let assign = trail.assign().copy()?;
            Ok(Some(Verdict::Sat(assign)))
        }
    }
}

// One step of the search where a clause is false.
fn resolve<S: Store, R: Recorder>(
    trail: &mut Trail,
    store: &mut S,
    question: SearchQuestion<'_>,
    number: u64,
    panel: &mut Panel,
    recorder: &mut R,
) -> Result<Option<Verdict>, OutOfMemory>
    requires running { IsRunning question.assumptions.now (S.held store.old) trail.old }
    requires is_false { truth_at (S.held store.old).clauses trail.old.values number ≡ Some Truth.False }
    ensures keeps { Keeps (S.held store.old) (S.held store.new) }
    ensures goes_on { IfOk result (λ _. GoesOn question.entry.assumptions.now (S.held store.old) (S.held store.new)
        (R.kept recorder.old) (R.kept recorder.new) trail.new) }
    ensures advance { IfOk result
        (λ answer. IsAdvance true (S.held store.new).clauses question.entry.assumptions.now trail.old trail.new answer) }
    ensures ready { panel.new.vars ≡ panel.old.vars }
    ensures rotated { panel.new.rotated ≡ panel.old.rotated }
{
    if lits(store, number as usize - 1).is_empty() {
        return Ok(Some(Verdict::Unsat(Clause::from_lits(question.alloc, &[])?)));
    }
    let answer = learn(trail, store, question, number, panel, recorder)?;
    match answer {
        Some(clause) => Ok(Some(Verdict::Unsat(clause))),
        None => Ok(None),
    }
}

// Learns from a false clause and goes back, unless the empty clause follows.
fn learn<S: Store, R: Recorder>(
    trail: &mut Trail,
    store: &mut S,
    question: SearchQuestion<'_>,
    number: u64,
    panel: &mut Panel,
    recorder: &mut R,
) -> Result<Option<Clause>, OutOfMemory>
    requires running { IsRunning question.assumptions.now (S.held store.old) trail.old }
    requires is_false { truth_at (S.held store.old).clauses trail.old.values number ≡ Some Truth.False }
    ensures keeps { Keeps (S.held store.old) (S.held store.new) }
    ensures goes_on { IfOk result (λ _. GoesOn question.entry.assumptions.now (S.held store.old) (S.held store.new)
        (R.kept recorder.old) (R.kept recorder.new) trail.new) }
    ensures lesson { IfOk result
        (λ answer. IsLesson (S.held store.new).clauses question.entry.assumptions.now trail.old trail.new answer) }
    ensures ready { panel.new.vars ≡ panel.old.vars }
    ensures rotated { panel.new.rotated ≡ panel.old.rotated }
{
    let learned = analyse(question.alloc, trail, store, number, false)?;
    keep_lesson(trail, store, question, &learned.step, panel, recorder)?;
    if learned.step.clause.lits().is_empty() {
        return Ok(Some(learned.step.clause.copy()?));
    }
    let lit = learned.step.clause.lits()[0];
    trail.undo(learned.target);
    push(
        trail,
        store,
        question,
        lit,
        Reason::Implied(len(store) as u64),
    )?;
    Ok(None)
}

// The clause of negated assumptions that shows that this assumption can't be true beside the others.
fn refute<S: Store, R: Recorder>(
    trail: &mut Trail,
    store: &mut S,
    question: SearchQuestion<'_>,
    assumption: Lit,
    panel: &mut Panel,
    recorder: &mut R,
) -> Result<Clause, OutOfMemory>
    requires running { IsRunning question.assumptions.now (S.held store.old) trail.old }
    requires assumed { Contains question.assumptions.now assumption }
    requires is_false { value_of trail.old.values assumption ≡ Some false }
    ensures keeps { Keeps (S.held store.old) (S.held store.new) }
    ensures goes_on { IfOk result (λ _. GoesOn question.entry.assumptions.now (S.held store.old) (S.held store.new)
        (R.kept recorder.old) (R.kept recorder.new) trail.new) }
    ensures core { IfOk result (λ c. IsCore question.entry.cores (S.held store.new).clauses question.entry.assumptions.now c) }
    ensures ready { panel.new.vars ≡ panel.old.vars }
    ensures rotated { panel.new.rotated ≡ panel.old.rotated }
{
    let place = place_of(trail, assumption.neg());
    let reason = trail.at(place).reason;
    let Reason::Implied(number) = reason else {
        unreachable!()
    };
    trail.undo(place);
    push(trail, store, question, assumption, Reason::Assumed(0))?;
    let core = take_core(trail, store, question, number, panel, recorder)?;
    Ok(core)
}

// The place of a true literal on the trail.
fn place_of(trail: &Trail, lit: Lit) -> usize
    requires lawful { IsLawful trail.now }
    requires is_true { value_of trail.now.values lit ≡ Some true }
    ensures within { result < length trail.now.entries }
    ensures place { IsAt trail.now.entries result lit }
{
    let mut i = 0;
    while i < trail.len() {
        if trail.at(i).lit == lit {
            return i;
        }
        i += 1;
    }
    unreachable!()
}

// Makes one more literal true, for a reason.
fn push<S: Store>(
    trail: &mut Trail,
    store: &S,
    question: SearchQuestion<'_>,
    lit: Lit,
    reason: Reason,
) -> Result<(), OutOfMemory>
    requires running { IsRunning question.assumptions.now (S.held store.now) trail.old }
    requires in_range { IsInRange trail.old.values lit }
    requires free { value_of trail.old.values lit ≡ None }
    requires reason { IsReason (S.held store.now).clauses question.assumptions.now trail.old.values lit reason }
    ensures running { OnOk result (IsRunning question.entry.assumptions.now (S.held store.now) trail.new) }
    ensures entries { OnOk result (trail.new.entries ≡ trail.old.entries ++ (record { lit = lit; reason = reason }) ∷ []) }
    ensures rises { OnOk result (IsFurther trail.old trail.new) }
{
    trail.set(lit, reason)
}

/// Whether a search can be asked for this: at most 2^62 - 1 variables, the clauses and assumptions over
/// them, and no assumption beside its opposite.
pub fn can_solve(clauses: &ClauseList, vars: u64, assumptions: &[Lit]) -> bool
    ensures { IsTrue result ↔ CanSolve vars clauses.now assumptions.now }
{
    if vars >= 4611686018427387904 {
        return false;
    }
    if !are_all_up_to(clauses, vars) {
        return false;
    }
    if !are_up_to(assumptions, vars) {
        return false;
    }
    has_no_opposites(assumptions)
}

// Whether the variables of all clauses are at most `vars`.
fn are_all_up_to(clauses: &ClauseList, vars: u64) -> bool
    ensures { IsTrue result ↔ All (All (IsUpTo vars)) clauses.now }
{
    let mut i = 0;
    while i < clauses.len() {
        if !are_up_to(clauses.at(i).lits(), vars) {
            return false;
        }
        i += 1;
    }
    true
}
