//! Paths as data: one assignment for each moment.
//!
//! [`StepList`] is the list of the moments, from a first state to a bad one. While a path is looked for it has the
//! obligations, the bad state's first, and is turned round at the end.
ghost use Rattle.std.specs.Prelude.{◌≡◌, ◌<◌, ◌↔◌, [], ◌∷◌, ◌++◌, length, reverse, Some, slice_get, IfOk, OnOk, OnErr, IsTrue};
ghost use Rattle.sat_clauses.specs.Assignment.{Assignment};

use base_values::OutOfMemory;
use sat_clauses::assign::Assign;
use std::alloc::Global;
use std::marker::Model;

/// The moments of a path in order, one assignment each. Each but the last gives all state bits and input
/// bits now, and the last gives the state bits now.
#[derive(Drop)]
pub struct StepList {
    steps: Vec<Assign>,
}

impl Model for StepList {
    ghost use Rattle.std.specs.Prelude.{List};
    ghost use Rattle.sat_clauses.specs.Assignment.{Assignment};

    ghost Value = { List Assignment };

    ghost view = { λ s. s.steps.items };
}

impl StepList {
    /// No moment; takes no memory and keeps the allocator.
    pub fn new(alloc: Global) -> StepList
        ensures { result ≡ [] }
    {
        StepList {
            steps: Vec::new(alloc),
        }
    }

    /// Appends a moment. Where there is no memory the list stays as it was.
    pub fn push(&mut self, step: Assign) -> Result<(), OutOfMemory>
        ensures ok { OnOk result (self.new ≡ self.old ++ step ∷ []) }
        ensures err { OnErr result (self.new ≡ self.old) }
    {
        self.steps.push(step)?;
        Ok(())
    }

    /// Takes the last moment away.
    pub fn pop(&mut self)
        requires { 0 < length self.old }
        ensures { (a : Assignment) × (self.old ≡ self.new ++ a ∷ []) }
    {
        let _last = self.steps.pop();
    }

    /// The moments the other way round.
    pub fn reversed(self) -> StepList
        ensures { result ≡ reverse self }
    {
        let StepList { mut steps } = self;
        steps.reverse();
        StepList { steps }
    }

    /// The number of moments.
    pub fn len(&self) -> usize
        ensures { result ≡ length self.now }
    {
        self.steps.len()
    }

    /// Whether there is no moment.
    pub fn is_empty(&self) -> bool
        ensures { IsTrue result ↔ (length self.now ≡ 0) }
    {
        self.steps.is_empty()
    }

    /// The moment at a place, counted from 0.
    pub fn at(&self, i: usize) -> &Assign
        requires { i < length self.now }
        ensures { slice_get self.now i ≡ Some result.now }
    {
        &self.steps[i]
    }

    /// The moments as a slice.
    pub fn as_slice(&self) -> &[Assign]
        ensures { result.now ≡ self.now }
    {
        self.steps.as_slice()
    }

    /// A list of its own with the same moments.
    pub fn copy(&self) -> Result<StepList, OutOfMemory>
        ensures { IfOk result (λ list. list ≡ self.now) }
    {
        let mut list = StepList::new(*self.steps.allocator());
        for step in &self.steps {
            list.push(step.copy()?)?;
        }
        Ok(list)
    }
}
