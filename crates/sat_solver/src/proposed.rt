//! Answers that a kernel proposes. Nothing that it says is trusted: a clause that it learned is kept only where it follows by its hints
//! from those before it, an assignment is answered only where it makes all added clauses and the assumptions true, and a clause
//! only where it has negated assumptions alone and follows. Where that is not so there is no answer, and the search of
//! [`crate::solve`] gives it.
ghost use Rattle.std.specs.Prelude.{◌≡◌, ◌^◌, ◌<◌, ◌≤◌, ◌+◌, List, All, Any, Contains, IsTrue, IfOk, IfSome, Some, true, false, [], length};
ghost use Rattle.std.specs.Prelude.{slice_index_or, OnOk};
ghost use Rattle.sat_clauses.specs.Literal.{Literal, opposite};
ghost use Rattle.sat_clauses.specs.Assignment.{IsInRange, all_free, value_of};
ghost use Rattle.sat_clauses.specs.Derivation.{IsUpTo};
ghost use Rattle.sat_solver.specs.Search.{CanSolve, IsStep, IsSolution, Grows};
ghost use Rattle.sat_solver.specs.LearnedClauses.{added_of};
ghost use Rattle.sat_solver.specs.Proposals.{HasTrue, IsRight, IsShown};

use crate::arena::Arena;
use crate::question::SearchQuestion;
use crate::solve::Verdict;
use base_values::OutOfMemory;
use sat_adviser::Panel;
use sat_clauses::assign::Assign;
use sat_clauses::checker_trail::CheckerTrail;
use sat_clauses::clause_store::ClauseStore;
use sat_clauses::hints::{follow, has_no_opposites};
use sat_clauses::lit::{Lit, are_up_to, contains};
use sat_clauses::recorder::Recorder;
use sat_clauses::step::Step;
use sat_clauses::store::Store;
use sat_kernel::{Kernel, Proposal};
use std::alloc::Global;

/// Whether a step's clause follows by its hints.
fn is_step(judge: &mut CheckerTrail, clauses: &ClauseStore, step: &Step, vars: u64) -> bool
    requires small { vars < 2 ^ 62 }
    requires free { judge.old ≡ all_free vars }
    requires in_range { All (All (IsUpTo vars)) clauses.now.clauses }
    ensures free { judge.new ≡ all_free vars }
    ensures step { IsTrue result → IsStep vars clauses.now.clauses step.now }
{
    let lits = step.clause.lits();
    if !are_up_to(lits, vars) || !has_no_opposites(lits) {
        return false;
    }
    follow(judge, clauses, step).is_ok()
}

/// Keeps the clause of a step and tells the recorder, where it follows; answers whether it does.
fn keep_step<R: Recorder>(
    judge: &mut CheckerTrail,
    store: &mut Arena,
    step: &Step,
    recorder: &mut R,
) -> Result<bool, OutOfMemory>
    requires small { store.old.vars < 2 ^ 62 }
    requires free { judge.old ≡ all_free store.old.vars }
    requires in_range { All (All (IsUpTo store.old.vars)) store.old.clauses }
    ensures free { judge.new ≡ all_free store.old.vars }
    ensures vars { store.new.vars ≡ store.old.vars }
    ensures trail { store.new.trail ≡ store.old.trail }
    ensures grows { OnOk result (Grows store.old.vars store.old.clauses (R.kept recorder.old) store.new.clauses (R.kept recorder.new)) }
    ensures shown { IfOk result (λ is_kept. IsTrue is_kept → IsShown true store.old.clauses store.new.clauses step.now.clause) }
{
    if !is_step(judge, store.stored(), step, store.vars()) {
        return Ok(false);
    }
    recorder.keep(step)?;
    store.push(step.clause.lits())?;
    Ok(true)
}

/// Keeps the clauses of steps up to the first that does not follow, and answers whether all do.
fn keep_steps<R: Recorder>(
    alloc: Global,
    store: &mut Arena,
    steps: &[Step],
    recorder: &mut R,
) -> Result<bool, OutOfMemory>
    requires small { store.old.vars < 2 ^ 62 }
    requires in_range { All (All (IsUpTo store.old.vars)) store.old.clauses }
    ensures vars { store.new.vars ≡ store.old.vars }
    ensures trail { store.new.trail ≡ store.old.trail }
    ensures grows { OnOk result (Grows store.old.vars store.old.clauses (R.kept recorder.old) store.new.clauses (R.kept recorder.new)) }
{
    if steps.is_empty() {
        return Ok(true);
    }
    let mut judge = CheckerTrail::with_vars(alloc, store.vars())?;
    for step in steps {
        if !keep_step(&mut judge, store, step, recorder)? {
            return Ok(false);
        }
    }
    Ok(true)
}

/// Whether a literal of a clause is true.
fn has_true(lits: &[Lit], assign: &Assign) -> bool
    requires { All (IsInRange assign.now) lits.now }
    ensures { IsTrue result → HasTrue assign.now lits.now }
{
    for lit in lits {
        if assign.value(*lit) == Some(true) {
            return true;
        }
    }
    false
}

/// Whether the clause at a place was learned; one that has no mark was.
pub(crate) fn is_learned(marks: &[bool], place: usize) -> bool
    ensures { result ≡ slice_index_or marks.now place true }
{
    match marks.get(place) {
        Some(mark) => *mark,
        None => true,
    }
}

/// Whether the clause at a place was learned, or has a true literal.
fn is_settled(store: &Arena, marks: &[bool], assign: &Assign, place: usize) -> bool
    requires within { place < length store.now.clauses }
    requires in_range { All (All (IsInRange assign.now)) store.now.clauses }
    ensures { IsTrue result → slice_index_or marks.now place true ≡ false → HasTrue assign.now (slice_index_or store.now.clauses place []) }
{
    if is_learned(marks, place) {
        return true;
    }
    // The number of clauses is one of 64 bits.
    let _count = store.count();
    has_true(store.lits(place as u64 + 1), assign)
}

/// Whether all added clauses are true.
fn all_true(store: &Arena, marks: &[bool], assign: &Assign) -> bool
    requires { All (All (IsInRange assign.now)) store.now.clauses }
    ensures { IsTrue result → All (HasTrue assign.now) (added_of store.now.clauses marks.now) }
{
    let count = store.count() as usize;
    let mut i = 0;
    while i < count {
        if !is_settled(store, marks, assign, i) {
            return false;
        }
        i += 1;
    }
    true
}

/// Whether all these literals are true.
fn are_true(lits: &[Lit], assign: &Assign) -> bool
    requires { All (IsInRange assign.now) lits.now }
    ensures { IsTrue result → All (λ l. value_of assign.now l ≡ Some true) lits.now }
{
    for lit in lits {
        if assign.value(*lit) != Some(true) {
            return false;
        }
    }
    true
}

/// Whether each literal is a negated assumption.
fn are_negated(lits: &[Lit], assumptions: &[Lit]) -> bool
    ensures { IsTrue result → All (λ l. Contains assumptions.now (opposite l)) lits.now }
{
    for lit in lits {
        if !contains(assumptions, lit.neg()) {
            return false;
        }
    }
    true
}

/// The values that a kernel proposes.
fn values_of(alloc: Global, kernel: &Kernel, vars: u64) -> Result<Assign, OutOfMemory>
    requires { vars < 2 ^ 62 }
    ensures { IfOk result (λ a. length a ≡ vars + 1) }
{
    let mut values = Assign::with_vars(alloc, vars)?;
    let mut var = 1;
    while var <= vars {
        let lit = Lit::new(var, !kernel.is_true(var));
        if values.value(lit).is_none() {
            values.set(lit);
        }
        var += 1;
    }
    Ok(values)
}

/// The assignment that a kernel proposes, where it proposes one that makes all added clauses and the assumptions true.
fn model(
    kernel: &Kernel,
    proposal: &Proposal,
    store: &Arena,
    marks: &[bool],
    question: SearchQuestion<'_>,
) -> Result<Option<Assign>, OutOfMemory>
    requires small { store.now.vars < 2 ^ 62 }
    requires in_range { All (All (IsUpTo store.now.vars)) store.now.clauses }
    requires asked { All (IsUpTo store.now.vars) question.assumptions.now }
    ensures { IfOk result
        (λ r. IfSome r (IsSolution store.now.vars (added_of store.now.clauses marks.now) question.entry.assumptions.now)) }
{
    let Proposal::Model = proposal else {
        return Ok(None);
    };
    let values = values_of(question.alloc, kernel, store.vars())?;
    if all_true(store, marks, &values) && are_true(question.assumptions, &values) {
        return Ok(Some(values));
    }
    Ok(None)
}

/// Whether the clause of a step follows, which is kept with the others where `cores` holds.
fn refutes<R: Recorder>(
    alloc: Global,
    store: &mut Arena,
    step: &Step,
    cores: bool,
    recorder: &mut R,
) -> Result<bool, OutOfMemory>
    requires small { store.old.vars < 2 ^ 62 }
    requires in_range { All (All (IsUpTo store.old.vars)) store.old.clauses }
    ensures vars { store.new.vars ≡ store.old.vars }
    ensures trail { store.new.trail ≡ store.old.trail }
    ensures grows { OnOk result (Grows store.old.vars store.old.clauses (R.kept recorder.old) store.new.clauses (R.kept recorder.new)) }
    ensures shown { IfOk result (λ is_right. IsTrue is_right → IsShown cores store.old.clauses store.new.clauses step.now.clause) }
{
    let mut judge = CheckerTrail::with_vars(alloc, store.vars())?;
    if cores {
        let is_kept = keep_step(&mut judge, store, step, recorder)?;
        return Ok(is_kept);
    }
    let is_right = is_step(&mut judge, store.stored(), step, store.vars());
    Ok(is_right)
}

/// The clause by which a kernel refutes the assumptions, where it does.
fn core<R: Recorder>(
    store: &mut Arena,
    step: Step,
    question: SearchQuestion<'_>,
    recorder: &mut R,
) -> Result<Option<Verdict>, OutOfMemory>
    requires small { store.old.vars < 2 ^ 62 }
    requires in_range { All (All (IsUpTo store.old.vars)) store.old.clauses }
    ensures vars { store.new.vars ≡ store.old.vars }
    ensures trail { store.new.trail ≡ store.old.trail }
    ensures grows { OnOk result (Grows store.old.vars store.old.clauses (R.kept recorder.old) store.new.clauses (R.kept recorder.new)) }
    ensures right { (added : List (List Literal)) → IfOk result (λ r. IfSome r (IsRight question.entry.cores store.old.vars added
        store.old.clauses store.new.clauses question.entry.assumptions.now)) }
{
    if !are_negated(step.clause.lits(), question.assumptions) {
        return Ok(None);
    }
    if !refutes(question.alloc, store, &step, question.cores, recorder)? {
        return Ok(None);
    }
    Ok(Some(Verdict::Unsat(step.clause)))
}

/// What proposes answers, and which clauses were learned: an assignment is to make the others true.
pub(crate) struct Proposer<'k, 'm> {
    pub kernel: &'k mut Option<Kernel>,
    pub marks: &'m [bool],
}

/// The answer that a kernel proposes, where it is right. A kernel that learned what does not follow is asked no more.
pub(crate) fn proposed<R: Recorder>(
    proposer: Proposer<'_, '_>,
    store: &mut Arena,
    question: SearchQuestion<'_>,
    panel: &mut Panel,
    recorder: &mut R,
) -> Result<Option<Verdict>, OutOfMemory>
    requires can_solve { CanSolve store.old.vars store.old.clauses question.assumptions.now }
    ensures vars { store.new.vars ≡ store.old.vars }
    ensures trail { store.new.trail ≡ store.old.trail }
    ensures grows { OnOk result (Grows store.old.vars store.old.clauses (R.kept recorder.old) store.new.clauses (R.kept recorder.new)) }
    ensures right { IfOk result (λ r. IfSome r (IsRight question.entry.cores store.old.vars
        (added_of store.old.clauses proposer.entry.marks.now) store.old.clauses store.new.clauses question.entry.assumptions.now)) }
    ensures ready { panel.new.vars ≡ panel.old.vars }
    ensures rotated { panel.new.rotated ≡ panel.old.rotated }
{
    let Proposer {
        kernel: asked,
        marks,
    } = proposer;
    let Some(kernel) = asked else {
        return Ok(None);
    };
    let proposal = kernel.ask(question.assumptions, store.count(), panel)?;
    let steps = kernel.take_steps();
    let found = model(kernel, &proposal, store, marks, question)?;
    if !keep_steps(question.alloc, store, steps.as_slice(), recorder)? {
        *asked = None;
        return Ok(None);
    }
    if let Proposal::Core(step) = proposal {
        let answer = core(store, step, question, recorder)?;
        return Ok(answer);
    }
    match found {
        Some(values) => Ok(Some(Verdict::Sat(values))),
        None => Ok(None),
    }
}

/// The clause by which a kernel refutes the assumptions, where it does and that is right. An assignment that it proposes is not looked at.
/// A kernel that learned what does not follow is asked no more.
pub(crate) fn refuted<R: Recorder>(
    asked: &mut Option<Kernel>,
    store: &mut Arena,
    question: SearchQuestion<'_>,
    panel: &mut Panel,
    recorder: &mut R,
) -> Result<Option<Verdict>, OutOfMemory>
    requires can_solve { CanSolve store.old.vars store.old.clauses question.assumptions.now }
    ensures vars { store.new.vars ≡ store.old.vars }
    ensures trail { store.new.trail ≡ store.old.trail }
    ensures grows { OnOk result (Grows store.old.vars store.old.clauses (R.kept recorder.old) store.new.clauses (R.kept recorder.new)) }
    ensures right { (added : List (List Literal)) → IfOk result (λ r. IfSome r (IsRight question.entry.cores store.old.vars added
        store.old.clauses store.new.clauses question.entry.assumptions.now)) }
    ensures ready { panel.new.vars ≡ panel.old.vars }
    ensures rotated { panel.new.rotated ≡ panel.old.rotated }
{
    let Some(kernel) = asked else {
        return Ok(None);
    };
    let proposal = kernel.ask(question.assumptions, store.count(), panel)?;
    let steps = kernel.take_steps();
    if !keep_steps(question.alloc, store, steps.as_slice(), recorder)? {
        *asked = None;
        return Ok(None);
    }
    if let Proposal::Core(step) = proposal {
        let answer = core(store, step, question, recorder)?;
        return Ok(answer);
    }
    Ok(None)
}
