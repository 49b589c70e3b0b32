//! The steps of a derivation, packed.
//!
//! [`PackedSteps`] keeps the literals of all clauses in one list and all hints in another, and of each step where both lie. So a step
//! takes 32 bytes and 8 for each literal and hint, however short it is; contracts see the list of the steps.
ghost use Rattle.std.specs.Prelude.{◌≡◌, ◌<◌, [], ◌∷◌, ◌++◌, length, slice_get, Some, IfOk, OnOk, OnErr};

use base_values::OutOfMemory;
use sat_clauses::clause::Clause;
use sat_clauses::lit::Lit;
use sat_clauses::recorder::StepsList;
use sat_clauses::step::{HintList, Step};
use std::alloc::Global;
use std::marker::Model;

/// Where the literals and the hints of one step lie, each from its start up to but not including its end.
#[derive(Clone, Copy)]
struct StepSpan {
    lits_start: usize,
    lits_end: usize,
    hints_start: usize,
    hints_end: usize,
}

/// The steps of a derivation, in their order.
#[derive(Drop)]
pub struct PackedSteps {
    lits: Vec<Lit>,
    hints: Vec<u64>,
    spans: Vec<StepSpan>,
}

impl Model for PackedSteps {
    ghost use Rattle.std.specs.Prelude.{List};
    ghost use Rattle.sat_clauses.specs.declared.step.Step.{Step};

    ghost Value = { List Step };

    ghost use Rattle.cert_text.specs.PackedSteps.{steps_of, IsPacked};

    ghost view = { steps_of };

    ghost invariant = { IsPacked };
}

impl PackedSteps {
    /// No step. Takes no memory, and keeps the allocator.
    pub fn new(alloc: Global) -> PackedSteps
        ensures { result ≡ [] }
    {
        PackedSteps {
            lits: Vec::new(alloc),
            hints: Vec::new(alloc),
            spans: Vec::new(alloc),
        }
    }

    /// The steps of a list.
    pub fn of_list(alloc: Global, list: &StepsList) -> Result<PackedSteps, OutOfMemory>
        ensures { IfOk result (λ steps. steps ≡ list.now) }
    {
        let mut steps = PackedSteps::new(alloc);
        for i in 0..list.len() {
            steps.push(list.at(i))?;
        }
        Ok(steps)
    }

    /// Appends a step. Where there is no memory the list stays as it was.
    pub fn push(&mut self, step: &Step) -> Result<(), OutOfMemory>
        ensures ok { OnOk result (self.new ≡ self.old ++ step.now ∷ []) }
        ensures err { OnErr result (self.new ≡ self.old) }
    {
        let lits = step.clause.lits();
        let hints = step.hints.as_slice();
        self.lits.reserve(lits.len())?;
        self.hints.reserve(hints.len())?;
        self.spans.reserve(1)?;
        let lits_start = self.lits.len();
        let hints_start = self.hints.len();
        self.lits.extend_from_slice(lits).unwrap();
        self.hints.extend_from_slice(hints).unwrap();
        let lits_end = self.lits.len();
        let hints_end = self.hints.len();
        self.spans
            .push(StepSpan {
                lits_start,
                lits_end,
                hints_start,
                hints_end,
            })
            .unwrap();
        Ok(())
    }

    /// The number of steps.
    pub fn len(&self) -> usize
        ensures { result ≡ length self.now }
    {
        self.spans.len()
    }

    /// A copy of the step at a place, counted from 0.
    pub fn at(&self, i: usize) -> Result<Step, OutOfMemory>
        requires { i < length self.now }
        ensures { IfOk result (λ step. slice_get self.now i ≡ Some step) }
    {
        let span = self.spans[i];
        let alloc = *self.lits.allocator();
        let clause = Clause::from_lits(alloc, &self.lits[span.lits_start..span.lits_end])?;
        let hints = hints_of(alloc, &self.hints[span.hints_start..span.hints_end])?;
        Ok(Step { clause, hints })
    }

    /// A list of its own with the same steps.
    pub fn copy(&self) -> Result<PackedSteps, OutOfMemory>
        ensures { IfOk result (λ steps. steps ≡ self.now) }
    {
        Ok(PackedSteps {
            lits: self.lits.clone()?,
            hints: self.hints.clone()?,
            spans: self.spans.clone()?,
        })
    }
}

/// A list of these hints.
fn hints_of(alloc: Global, numbers: &[u64]) -> Result<HintList, OutOfMemory>
    ensures { IfOk result (λ hints. hints ≡ numbers.now) }
{
    let mut hints = HintList::new(alloc);
    for number in numbers {
        hints.push(*number)?;
    }
    Ok(hints)
}
