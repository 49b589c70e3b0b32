//! One step taken by the checker of derivations: rules 8 to 10.
ghost use Rattle.std.specs.Prelude.{◌≡◌, ◌↔◌, IsTrue, IfOk, All};
ghost use Rattle.sat_clauses.specs.CanTake.{CanTake};
ghost use Rattle.sat_clauses.specs.Derivation.{IsUpTo};
ghost use Rattle.sat_clauses.specs.Hints.{HasNoOpposites};
ghost use Rattle.cert_derivations.specs.Steps.{FindsStep, fault_rule};

use crate::marks::has_no_opposites;
use base_values::OutOfMemory;
use sat_clauses::checker::Checker;
use sat_clauses::lit::{Lit, are_up_to};
use sat_clauses::step::{Step, StepFault};

/// Takes a step, or tells the rule that it breaks first.
pub fn take_step(checker: &mut Checker, step: &Step) -> Result<Option<u32>, OutOfMemory>
    ensures { IfOk result (FindsStep checker.old.vars checker.old.clauses step.now checker.new) }
{
    let lits = step.clause.lits();
    checker.reserve(1, lits.len())?;
    if !has_its_literals(checker, lits) {
        return Ok(Some(8));
    }
    Ok(step_rule(checker, step))
}

/// Whether a clause is over the variables of a checker, and no literal stands in it with its opposite.
fn has_its_literals(checker: &Checker, lits: &[Lit]) -> bool
    ensures { IsTrue result ↔ (All (IsUpTo checker.now.vars) lits.now × HasNoOpposites lits.now) }
{
    if !are_up_to(lits, checker.vars()) {
        return false;
    }
    has_no_opposites(lits)
}

/// The rule of hints that a step breaks, for which there is room.
fn step_rule(checker: &mut Checker, step: &Step) -> Option<u32>
    requires { CanTake checker.old step.now.clause }
    ensures { FindsStep checker.old.vars checker.old.clauses step.now checker.new result }
{
    let outcome = checker.step(step);
    match outcome {
        Ok(()) => None,
        Err(fault) => Some(fault_rule(fault)),
    }
}

/// The rule of a fault of hints.
fn fault_rule(fault: StepFault) -> u32
    ensures { result ≡ fault_rule fault }
{
    match fault {
        StepFault::BadHint(_) => 9,
        StepFault::NoConflict => 10,
    }
}
