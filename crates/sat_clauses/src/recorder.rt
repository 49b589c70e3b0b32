//! Recorders: what a search hands its steps to.
//!
//! [`Recorder`] is the trait, an observer whose one call [`Recorder::keep`] takes a step. [`KeepAll`] keeps all steps in a
//! [`StepsList`], for a certificate, and [`KeepNone`] forgets them, for a search whose answer alone is wanted.
ghost use Rattle.std.specs.Prelude.{◌≡◌, ◌<◌, ◌↔◌, IsTrue, [], ◌∷◌, ◌++◌, length, IfOk, OnOk, OnErr, Some, None, slice_get};
ghost use Rattle.std.specs.Option.{option_map};

use crate::step::Step;
use base_values::OutOfMemory;
use std::alloc::Global;
use std::marker::Model;

/// What is handed the steps of a search, one after the other. A search does not know who listens.
pub trait Recorder {
    ghost use Rattle.std.specs.Prelude.{List, Option};
    ghost use Rattle.sat_clauses.specs.declared.step.Step.{Step};

    /// The steps that were kept, in order, or `None` where the recorder does not tell.
    ghost kept: { Self → Option (List Step) };

    /// Keeps one more step. Whether the recorder tells its list never changes. Where there is no
    /// memory the list stays as it was.
    fn keep(&mut self, step: &Step) -> Result<(), OutOfMemory>
        ensures ok { OnOk result
            (kept self.new ≡ option_map (λ steps. steps ++ step.now ∷ []) (kept self.old)) }
        ensures err { OnErr result (kept self.new ≡ kept self.old) };
}

/// A list of steps, in the order in which they were made.
#[derive(Drop)]
pub struct StepsList {
    steps: Vec<Step>,
}

impl Model for StepsList {
    ghost use Rattle.std.specs.Prelude.{List};
    ghost use Rattle.sat_clauses.specs.declared.step.Step.{Step};

    ghost Value = { List Step };

    ghost view = { λ l. l.steps.items };
}

impl StepsList {
    /// The empty list, which takes no memory and keeps the allocator.
    pub fn new(alloc: Global) -> StepsList
        ensures { result ≡ [] }
    {
        StepsList {
            steps: Vec::new(alloc),
        }
    }

    /// Appends a step. Where there is no memory the list stays as it was.
    pub fn push(&mut self, step: Step) -> Result<(), OutOfMemory>
        ensures ok { OnOk result (self.new ≡ self.old ++ step ∷ []) }
        ensures err { OnErr result (self.new ≡ self.old) }
    {
        self.steps.push(step)?;
        Ok(())
    }

    /// The number of steps.
    pub fn len(&self) -> usize
        ensures { result ≡ length self.now }
    {
        self.steps.len()
    }

    /// Whether there is no step.
    pub fn is_empty(&self) -> bool
        ensures { IsTrue result ↔ (length self.now ≡ 0) }
    {
        self.steps.is_empty()
    }

    /// The step at a place, counted from 0.
    pub fn at(&self, i: usize) -> &Step
        requires { i < length self.now }
        ensures { slice_get self.now i ≡ Some result.now }
    {
        &self.steps[i]
    }

    /// A list of its own with the same steps.
    pub fn copy(&self) -> Result<StepsList, OutOfMemory>
        ensures { IfOk result (λ list. list ≡ self.now) }
    {
        let mut list = StepsList::new(*self.steps.allocator());
        for step in &self.steps {
            list.push(step.copy()?)?;
        }
        Ok(list)
    }
}

/// A recorder that keeps every step, and tells them.
#[derive(Drop)]
pub struct KeepAll {
    steps: StepsList,
}

impl Model for KeepAll {
    ghost use Rattle.std.specs.Prelude.{List};
    ghost use Rattle.sat_clauses.specs.declared.step.Step.{Step};

    ghost Value = { List Step };

    ghost view = { λ r. r.steps };
}

impl KeepAll {
    /// The recorder that was handed no step yet. Takes no memory.
    pub fn new(alloc: Global) -> KeepAll
        ensures { result ≡ [] }
    {
        KeepAll {
            steps: StepsList::new(alloc),
        }
    }

    /// The steps that were kept, in the order in which they came.
    pub fn steps(&self) -> &StepsList
        ensures { result.now ≡ self.now }
    {
        &self.steps
    }
}

impl Recorder for KeepAll {
    ghost kept = { λ r. Some r };

    fn keep(&mut self, step: &Step) -> Result<(), OutOfMemory> {
        self.steps.push(step.copy()?)
    }
}

/// A recorder that keeps no step, and tells nothing.
#[derive(Clone, Copy)]
pub struct KeepNone;

impl Recorder for KeepNone {
    ghost kept = { λ _. None };

    fn keep(&mut self, _step: &Step) -> Result<(), OutOfMemory> {
        Ok(())
    }
}
