//! The assignment of a checker, which is made free again at the cost of the variables that have a value.
ghost use Rattle.std.specs.Prelude.{◌≡◌, ◌^◌, ◌<◌, None, length, IfOk, replicate};
ghost use Rattle.sat_clauses.specs.Assignment.{all_free, IsInRange, value_of, made_true};

use crate::assign::Assign;
use crate::lit::Lit;
use base_values::OutOfMemory;
use std::alloc::Global;
use std::marker::Model;

/// An assignment that can be made free again at a cost by the number of variables that have a value,
/// and not by that of all variables.
#[derive(Drop)]
pub struct CheckerTrail {
    assign: Assign,
    set: Vec<u64>,
}

impl Model for CheckerTrail {
    ghost use Rattle.sat_clauses.specs.Assignment.{Assignment};

    ghost Value = { Assignment };

    ghost use Rattle.sat_clauses.specs.DeriveTrail.{assignment_of, IsSound};

    ghost view = { assignment_of };

    ghost invariant = { IsSound };
}

impl CheckerTrail {
    /// The assignment of the variables up to `vars` in which all are free.
    pub fn with_vars(alloc: Global, vars: u64) -> Result<CheckerTrail, OutOfMemory>
        requires { vars < 2 ^ 62 }
        ensures { IfOk result (λ t. t ≡ all_free vars) }
    {
        let assign = Assign::with_vars(alloc, vars)?;
        let set = Vec::with_capacity(alloc, vars as usize + 1)?;
        Ok(CheckerTrail { assign, set })
    }

    /// The assignment.
    pub fn assign(&self) -> &Assign
        ensures { result.now ≡ self.now }
    {
        &self.assign
    }

    /// Makes a literal true. The place for its variable in the list was made with the trail, so this
    /// takes no memory.
    pub fn set(&mut self, lit: Lit)
        requires in_range { IsInRange self.old lit }
        requires free { value_of self.old lit ≡ None }
        ensures { self.new ≡ made_true self.old lit }
    {
        self.assign.set(lit);
        self.set.push(lit.var()).unwrap();
    }

    /// Makes all variables free.
    pub fn undo(&mut self)
        ensures { self.new ≡ replicate (length self.old) None }
    {
        while let Some(var) = self.set.pop() {
            self.assign.clear(var);
        }
    }
}
