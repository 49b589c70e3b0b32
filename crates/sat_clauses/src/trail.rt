//! The trail: the literals that were made true, in order, and the assignment that they make.
ghost use Rattle.std.specs.Prelude.{◌≡◌, ◌+◌, ◌^◌, ◌<◌, ◌≤◌, [], ◌∷◌, ◌++◌, length, take, IfOk, OnOk, OnErr, Some, None, false, ℕ, ◌↔◌};
ghost use Rattle.sat_clauses.specs.Assignment.{value_of};
ghost use Rattle.sat_clauses.specs.Trail.{assigned_by, IsTrail};

use crate::assign::Assign;
use crate::lit::Lit;
use base_values::OutOfMemory;
use std::alloc::Global;
use std::marker::Model;

/// Literals without a variable twice, in the order in which they were made true. Its making and `more`
/// make the room for all, so that no other call takes memory.
#[derive(Drop)]
pub struct LiteralTrail {
    assign: Assign,
    lits: Vec<Lit>,
    // For each variable that has a value, the place of its literal.
    places: Vec<usize>,
}

impl Model for LiteralTrail {
    ghost use Rattle.sat_clauses.specs.TrailRecord.{TrailValue};

    ghost Value = { TrailValue };

    ghost use Rattle.sat_clauses.specs.TrailInside.{trail_of, IsSound};

    ghost view = { trail_of };

    ghost invariant = { IsSound };
}

impl LiteralTrail {
    /// The empty trail over the variables from 1 to `vars`.
    pub fn with_vars(alloc: Global, vars: u64) -> Result<LiteralTrail, OutOfMemory>
        requires { vars < 2 ^ 62 }
        ensures vars { IfOk result (λ t. t.vars ≡ vars) }
        ensures lits { IfOk result (λ t. t.lits ≡ []) }
    {
        let assign = Assign::with_vars(alloc, vars)?;
        let lits = Vec::with_capacity(alloc, vars as usize + 1)?;
        let places = vec![in alloc; 0; vars as usize + 1]?;
        Ok(LiteralTrail {
            assign,
            lits,
            places,
        })
    }

    /// The highest variable.
    pub fn vars(&self) -> u64
        ensures value { result ≡ self.now.vars }
        ensures small { result < 2 ^ 62 }
        ensures is_trail { IsTrail self.now.vars self.now.lits }
    {
        self.assign.vars()
    }

    /// The literals.
    pub fn lits(&self) -> &[Lit]
        ensures value { result.now ≡ self.now.lits }
        ensures is_trail { IsTrail self.now.vars self.now.lits }
    {
        self.lits.as_slice()
    }

    /// The assignment that makes exactly these literals true.
    pub fn assign(&self) -> &Assign
        ensures value { result.now ≡ assigned_by self.now.vars self.now.lits }
        ensures is_trail { IsTrail self.now.vars self.now.lits }
    {
        &self.assign
    }

    /// The place, from 0, at which a false literal became false.
    pub fn place(&self, lit: Lit) -> usize
        requires in_range { lit.var ≤ self.now.vars }
        requires is_false { value_of (assigned_by self.now.vars self.now.lits) lit ≡ Some false }
        ensures within { result < length self.now.lits }
        ensures since { (k : ℕ) → (value_of (assigned_by self.now.vars (take k self.now.lits)) lit ≡ Some false) ↔ (result < k) }
    {
        self.places[lit.var() as usize]
    }

    /// Raises the highest variable by one; the new variable is free.
    pub fn more(&mut self) -> Result<(), OutOfMemory>
        ensures ok { OnOk result (self.new ≡ record self.old { vars = self.old.vars + 1 }) }
        ensures err { OnErr result (self.new ≡ self.old) }
        ensures is_trail { IsTrail self.old.vars self.old.lits }
    {
        let vars = self.assign.vars();
        if vars >= 4611686018427387903 {
            return Err(OutOfMemory);
        }
        let missing = (vars as usize + 2) - self.lits.len();
        self.lits.reserve(missing)?;
        self.places.reserve(1)?;
        self.assign.more()?;
        self.places.push(0).unwrap();
        Ok(())
    }

    /// Makes one more literal true.
    pub fn set(&mut self, lit: Lit)
        requires in_range { lit.var ≤ self.old.vars }
        requires free { value_of (assigned_by self.old.vars self.old.lits) lit ≡ None }
        ensures value { self.new ≡ record self.old { lits = self.old.lits ++ lit ∷ [] } }
        ensures real { 1 ≤ lit.var }
    {
        self.assign.set(lit);
        self.places[lit.var() as usize] = self.lits.len();
        self.lits.push(lit).unwrap();
    }

    /// Keeps the first `keep` literals.
    pub fn undo(&mut self, keep: usize)
        requires { keep ≤ length self.old.lits }
        ensures { self.new ≡ record self.old { lits = take keep self.old.lits } }
    {
        while self.lits.len() > keep {
            if let Some(lit) = self.lits.pop() {
                self.assign.clear(lit.var());
            }
        }
    }
}
