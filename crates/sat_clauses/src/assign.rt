//! Assignments that may leave variables free.
//!
//! [`Assign`] has one place for each variable, and is read and changed at one place at a time. [`Assign::value`] is
//! the main call: what a literal is, by the value of its variable and its sign. What makes variables free again in
//! bulk keeps its own list of those that it set: [`crate::trail`] for a search, [`crate::checker_trail`] for a
//! checker.
ghost use Rattle.std.specs.Prelude.{◌≡◌, ◌+◌, ◌<◌, ◌^◌, length, None, IfOk, OnOk, OnErr, [], ◌∷◌, ◌++◌, slice_set};
ghost use Rattle.sat_clauses.specs.Assignment.{all_free, IsInRange, value_of, made_true};

use crate::lit::Lit;
use base_values::OutOfMemory;
use std::alloc::Global;
use std::marker::Model;

/// A value for some of the variables from 1 to the highest, which is below 2^62; the others are free. It
/// has one place for each variable, and none of its calls looks at more than one.
#[derive(Drop)]
pub struct Assign {
    values: Vec<Option<bool>>,
}

impl Model for Assign {
    ghost use Rattle.std.specs.Prelude.{◌<◌, ◌≤◌, ◌^◌, vec_len};
    ghost use Rattle.sat_clauses.specs.Assignment.{Assignment};

    ghost Value = { Assignment };

    ghost view = { λ a. a.values.items };

    ghost invariant = { λ a. (0 < vec_len a.values) × (vec_len a.values ≤ 2 ^ 62) };
}

impl Assign {
    /// The assignment of the variables up to `vars` in which all are free.
    pub fn with_vars(alloc: Global, vars: u64) -> Result<Assign, OutOfMemory>
        requires { vars < 2 ^ 62 }
        ensures { IfOk result (λ a. a ≡ all_free vars) }
    {
        let values = vec![in alloc; None; vars as usize + 1]?;
        Ok(Assign { values })
    }

    /// The highest variable.
    pub fn vars(&self) -> u64
        ensures value { result + 1 ≡ length self.now }
        ensures small { result < 2 ^ 62 }
    {
        self.values.len() as u64 - 1
    }

    /// Raises the highest variable by one; the new variable is free. Where there is no memory, or the
    /// highest variable would be 2^62, nothing has changed.
    pub fn more(&mut self) -> Result<(), OutOfMemory>
        ensures ok { OnOk result (self.new ≡ self.old ++ None ∷ []) }
        ensures err { OnErr result (self.new ≡ self.old) }
    {
        if self.values.len() >= 4611686018427387904 {
            return Err(OutOfMemory);
        }
        self.values.push(None)?;
        Ok(())
    }

    /// Makes a literal true. Takes no memory.
    pub fn set(&mut self, lit: Lit)
        requires in_range { IsInRange self.old lit }
        requires free { value_of self.old lit ≡ None }
        ensures { self.new ≡ made_true self.old lit }
    {
        self.values[lit.var() as usize] = Some(!lit.is_negated());
    }

    /// Makes a variable free. Takes no memory.
    pub fn clear(&mut self, var: u64)
        requires { var < length self.old }
        ensures { self.new ≡ slice_set self.old var None }
    {
        self.values[var as usize] = None;
    }

    /// What a literal is, or `None` exactly where its variable is free. Takes no memory.
    pub fn value(&self, lit: Lit) -> Option<bool>
        requires { IsInRange self.now lit }
        ensures { result ≡ value_of self.now lit }
    {
        let value = self.values[lit.var() as usize]?;
        Some(value != lit.is_negated())
    }

    /// An assignment of its own with the same values.
    pub fn copy(&self) -> Result<Assign, OutOfMemory>
        ensures { IfOk result (λ a. a ≡ self.now) }
    {
        Ok(Assign {
            values: self.values.clone()?,
        })
    }
}
