//! What the search makes of a lesson, the clause that a false clause teaches: it is kept with its hints, and the present
//! adviser hears it once.
//!
//! [`keep_lesson`] keeps it, and [`take_core`] finds the clause of assumptions that refutes one of them.
ghost use Rattle.std.specs.Prelude.{◌≡◌, [], ◌∷◌, ◌++◌, map, IfOk, OnOk, Some};
ghost use Rattle.sat_clauses.specs.Hints.{truth_at};
ghost use Rattle.sat_solver.specs.Search.{IsStep};
ghost use Rattle.sat_solver.specs.Lessons.{HasHeard, IsAnalysedCore};
ghost use Rattle.sat_solver.specs.SearchSteps.{IsRunning, Keeps, GoesOn};

use crate::analysis::analyse;
use crate::clauses::append;
use crate::question::SearchQuestion;
use crate::trail::Trail;
use base_values::OutOfMemory;
use sat_adviser::{Adviser, Panel};
use sat_clauses::clause::{Clause, Truth};
use sat_clauses::recorder::Recorder;
use sat_clauses::step::Step;
use sat_clauses::store::Store;

/// The clause of decisions alone that a false clause teaches: where cores are kept it is kept as a lesson, else
/// the panel alone hears of it.
pub fn take_core<S: Store, R: Recorder>(
    trail: &Trail,
    store: &mut S,
    question: SearchQuestion<'_>,
    number: u64,
    panel: &mut Panel,
    recorder: &mut R,
) -> Result<Clause, OutOfMemory>
    requires running { IsRunning question.assumptions.now (S.held store.old) trail.now }
    requires is_false { truth_at (S.held store.old).clauses trail.now.values number ≡ Some Truth.False }
    ensures keeps { Keeps (S.held store.old) (S.held store.new) }
    ensures goes_on { IfOk result (λ _. GoesOn question.entry.assumptions.now (S.held store.old) (S.held store.new)
        (R.kept recorder.old) (R.kept recorder.new) trail.now) }
    ensures core { IfOk result
        (IsAnalysedCore question.entry.cores (S.held store.old).clauses (S.held store.new).clauses number trail.now) }
    ensures heard { IfOk result (HasHeard panel.old.present
        (map (λ b. (⟦<dyn Adviser as Adviser>⟧ b.vtable).heard b.value) panel.old.advisers.items)
        (map (λ b. (⟦<dyn Adviser as Adviser>⟧ b.vtable).heard b.value) panel.new.advisers.items)
        (map (λ b. (⟦<dyn Adviser as Adviser>⟧ b.vtable).told b.value) panel.old.advisers.items)
        (map (λ b. (⟦<dyn Adviser as Adviser>⟧ b.vtable).told b.value) panel.new.advisers.items)) }
    ensures ready { panel.new.vars ≡ panel.old.vars }
    ensures rotated { panel.new.rotated ≡ panel.old.rotated }
{
    let learned = analyse(question.alloc, trail, store, number, true)?;
    if question.cores {
        keep_lesson(trail, store, question, &learned.step, panel, recorder)?;
        return Ok(learned.step.clause);
    }
    panel.learned(learned.step.clause.lits());
    Ok(learned.step.clause)
}

/// Keeps the clause of a step with its hints, and tells the panel.
pub fn keep_lesson<S: Store, R: Recorder>(
    trail: &Trail,
    store: &mut S,
    question: SearchQuestion<'_>,
    step: &Step,
    panel: &mut Panel,
    recorder: &mut R,
) -> Result<(), OutOfMemory>
    requires running { IsRunning question.assumptions.now (S.held store.old) trail.now }
    requires step { IsStep (S.held store.old).vars (S.held store.old).clauses step.now }
    ensures keeps { Keeps (S.held store.old) (S.held store.new) }
    ensures goes_on { OnOk result (GoesOn question.entry.assumptions.now (S.held store.old) (S.held store.new)
        (R.kept recorder.old) (R.kept recorder.new) trail.now) }
    ensures clauses { OnOk result ((S.held store.new).clauses ≡ (S.held store.old).clauses ++ step.now.clause ∷ []) }
    ensures heard { OnOk result (HasHeard panel.old.present
        (map (λ b. (⟦<dyn Adviser as Adviser>⟧ b.vtable).heard b.value) panel.old.advisers.items)
        (map (λ b. (⟦<dyn Adviser as Adviser>⟧ b.vtable).heard b.value) panel.new.advisers.items)
        (map (λ b. (⟦<dyn Adviser as Adviser>⟧ b.vtable).told b.value) panel.old.advisers.items)
        (map (λ b. (⟦<dyn Adviser as Adviser>⟧ b.vtable).told b.value) panel.new.advisers.items) step.now.clause) }
    ensures ready { panel.new.vars ≡ panel.old.vars }
    ensures rotated { panel.new.rotated ≡ panel.old.rotated }
{
    recorder.keep(step)?;
    append(store, step.clause.lits())?;
    panel.learned(step.clause.lits());
    Ok(())
}
