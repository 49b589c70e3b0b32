//! Steps of a derivation, as data: a clause, and hints by which it follows.
//!
//! [`Step`] has both, [`HintList`] is the list of hints, which are numbers of earlier clauses, and [`StepFault`] says why
//! [`crate::checker`] refuses a step.
ghost use Rattle.std.specs.Prelude.{◌≡◌, ◌<◌, ◌↔◌, IsTrue, [], ◌∷◌, ◌++◌, length, IfOk, OnOk, OnErr, Some, slice_get};

use crate::clause::Clause;
use base_values::OutOfMemory;
use std::alloc::Global;
use std::marker::Model;

/// A list of clause numbers, which count from 1.
#[derive(Drop)]
pub struct HintList {
    numbers: Vec<u64>,
}

impl Model for HintList {
    ghost use Rattle.std.specs.Prelude.{List, ℕ};

    ghost Value = { List ℕ };

    ghost view = { λ l. l.numbers.items };
}

impl HintList {
    /// The empty list, which takes no memory and keeps the allocator.
    pub fn new(alloc: Global) -> HintList
        ensures { result ≡ [] }
    {
        HintList {
            numbers: Vec::new(alloc),
        }
    }

    /// Appends a number. Where there is no memory the list stays as it was.
    pub fn push(&mut self, number: u64) -> Result<(), OutOfMemory>
        ensures ok { OnOk result (self.new ≡ self.old ++ number ∷ []) }
        ensures err { OnErr result (self.new ≡ self.old) }
    {
        self.numbers.push(number)?;
        Ok(())
    }

    /// The number of hints.
    pub fn len(&self) -> usize
        ensures { result ≡ length self.now }
    {
        self.numbers.len()
    }

    /// Whether there is no hint.
    pub fn is_empty(&self) -> bool
        ensures { IsTrue result ↔ (length self.now ≡ 0) }
    {
        self.numbers.is_empty()
    }

    /// The hint at a place, counted from 0.
    pub fn at(&self, i: usize) -> &u64
        requires { i < length self.now }
        ensures { slice_get self.now i ≡ Some result.now }
    {
        &self.numbers[i]
    }

    /// The hints as a slice.
    pub fn as_slice(&self) -> &[u64]
        ensures { result.now ≡ self.now }
    {
        self.numbers.as_slice()
    }

    /// A list of its own with the same hints.
    pub fn copy(&self) -> Result<HintList, OutOfMemory>
        ensures { IfOk result (λ list. list ≡ self.now) }
    {
        Ok(HintList {
            numbers: self.numbers.clone()?,
        })
    }
}

/// A clause with the numbers of the clauses by which it follows, in the order of unit propagation.
#[derive(Drop)]
pub struct Step {
    /// The clause that follows.
    pub clause: Clause,
    /// Numbers of earlier clauses, from 1, the last of which is false at its turn.
    pub hints: HintList,
}

impl Step {
    /// A step of its own with the same clause and hints.
    pub fn copy(&self) -> Result<Step, OutOfMemory>
        ensures { IfOk result (λ step. step ≡ self.now) }
    {
        Ok(Step {
            clause: self.clause.copy()?,
            hints: self.hints.copy()?,
        })
    }
}

/// Why a step is refused.
#[derive(Clone, Copy, Debug, PartialEq, Eq)]
pub enum StepFault {
    /// The hint of this number, counted from 1, is no number of an earlier clause, or its clause is
    /// neither unit nor false at its turn, or a false clause came before it.
    BadHint(u64),
    /// All hints are used, and none of their clauses was false.
    NoConflict,
}
