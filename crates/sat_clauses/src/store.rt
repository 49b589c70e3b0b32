//! Stores of clauses with a trail: what a search asks of its clauses.
//!
//! A [`Store`] is seen as a record of its highest variable, its clauses, numbered from 1, and its trail, the
//! literals that were made true, without a variable twice. Right after a literal was made true, `found` has
//! exactly the clauses that this left false or unit. [`PlainStore`] looks through all its clauses for them.
ghost use Rattle.std.specs.Prelude.{◌≡◌, ◌+◌, ◌-◌, ◌^◌, ◌<◌, ◌≤◌, [], ◌∷◌, ◌++◌, length, take, IfOk, OnOk, OnErr, Some, None, slice_get};
ghost use Rattle.std.specs.Prelude.{All, vec_len, vec_capacity, if◌then◌else◌};
ghost use Rattle.sat_clauses.specs.Literal.{opposite};
ghost use Rattle.sat_clauses.specs.Assignment.{IsInRange, value_of};
ghost use Rattle.sat_clauses.specs.Models.{ClauseBelow};
ghost use Rattle.sat_clauses.specs.Trail.{assigned_by};
ghost use Rattle.sat_clauses.specs.Store.{IsStore, AreExactlyDue, is_due, due_from};

use crate::assign::Assign;
use crate::clause::{Clause, ClauseList, Truth};
use crate::lit::{Lit, contains};
use crate::trail::LiteralTrail;
use crate::truth::truth_of_lits;
use base_values::OutOfMemory;
use std::alloc::Global;
use std::marker::Model;

/// A list of clauses and a trail. Where a call answers want of memory, nothing has changed. A clause may
/// hold a literal twice, or with its opposite, and may be appended under any trail.
pub trait Store {
    ghost use Rattle.sat_clauses.specs.StoreRecord.{StoreValue};

    /// The highest variable, the clauses, the trail, and what `found` answers.
    ghost held: { Self → StoreValue };

    /// The highest variable.
    fn vars(&self) -> u64
        ensures value { result ≡ (held self.now).vars }
        ensures is_store { IsStore (held self.now) };

    /// Raises the highest variable by one; the new variable is free.
    fn more(&mut self) -> Result<(), OutOfMemory>
        ensures ok { OnOk result (held self.new ≡ record (held self.old) { vars = (held self.old).vars + 1; found = [] }) }
        ensures err { OnErr result (held self.new ≡ held self.old) };

    /// The number of clauses.
    fn count(&self) -> u64
        ensures { result ≡ length (held self.now).clauses };

    /// The literals of the clause of this number, from 1, as they were pushed.
    fn lits(&self, number: u64) -> &[Lit]
        requires positive { 1 ≤ number }
        requires within { number ≤ length (held self.now).clauses }
        ensures { slice_get (held self.now).clauses (number - 1) ≡ Some result.now };

    /// Appends a clause, under any trail.
    fn push(&mut self, lits: &[Lit]) -> Result<(), OutOfMemory>
        requires { ClauseBelow ((held self.old).vars + 1) lits.now }
        ensures ok { OnOk result (held self.new
            ≡ record (held self.old) { clauses = (held self.old).clauses ++ lits.now ∷ []; found = [] }) }
        ensures err { OnErr result (held self.new ≡ held self.old) };

    /// The literals that were made true, in order.
    fn trail(&self) -> &[Lit]
        ensures { result.now ≡ (held self.now).trail };

    /// The assignment that makes exactly the literals of the trail true.
    fn assign(&self) -> &Assign
        ensures { result.now ≡ assigned_by (held self.now).vars (held self.now).trail };

    /// Makes a literal true: it comes at the end of the trail. Takes no memory.
    fn set(&mut self, lit: Lit)
        requires in_range { lit.var ≤ (held self.old).vars }
        requires free { value_of (assigned_by (held self.old).vars (held self.old).trail) lit ≡ None }
        ensures held { held self.new ≡ record (held self.old) { trail = (held self.old).trail ++ lit ∷ []; found = (held self.new).found } }
        ensures found { AreExactlyDue (held self.new).clauses (assigned_by (held self.new).vars (held self.new).trail) (opposite lit)
            (held self.new).found };

    /// Where the last call that changes a store was `set` of a literal, the numbers of exactly the
    /// clauses that contain its negation and are false or unit, each once. Otherwise none.
    fn found(&self) -> &[u64]
        ensures { result.now ≡ (held self.now).found };

    /// Keeps the first `keep` literals of the trail. Takes no memory.
    fn undo(&mut self, keep: u64)
        requires { keep ≤ length (held self.old).trail }
        ensures { held self.new ≡ record (held self.old) { trail = take keep (held self.old).trail; found = [] } };
}

/// A list of clauses that is looked through.
#[derive(Drop)]
pub struct PlainStore {
    clauses: ClauseList,
    trail: LiteralTrail,
    found: Vec<u64>,
}

impl Model for PlainStore {
    ghost use Rattle.sat_clauses.specs.StoreRecord.{StoreValue};

    ghost Value = { StoreValue };

    ghost use Rattle.sat_clauses.specs.StoreInside.{store_of, IsSound};

    ghost view = { store_of };

    ghost invariant = { IsSound };
}

// Whether the clause of these literals contains this one and is false or unit.
fn is_due(lits: &[Lit], assign: &Assign, lit: Lit) -> bool
    requires { All (IsInRange assign.now) lits.now }
    ensures { result ≡ is_due assign.now lit lits.now }
{
    if !lits.contains(&lit) {
        return false;
    }
    match truth_of_lits(lits, assign) {
        Truth::False | Truth::Unit(_) => true,
        Truth::True | Truth::Unknown => false,
    }
}

// Notes the number of a clause that contains this literal and is false or unit.
fn note_due(lits: &[Lit], assign: &Assign, lit: Lit, number: u64, found: &mut Vec<u64>)
    requires in_range { All (IsInRange assign.now) lits.now }
    requires room { vec_len found.old < vec_capacity found.old }
    ensures found { found.new.items ≡ (if is_due assign.now lit lits.now then found.old.items ++ number ∷ [] else found.old.items) }
    ensures few { vec_len found.new ≤ vec_len found.old + 1 }
    ensures room { vec_capacity found.old ≤ vec_capacity found.new }
{
    if is_due(lits, assign, lit) {
        found.push(number).unwrap();
    }
}

// Finds the clauses that contain this literal and are false or unit.
fn find_due(clauses: &ClauseList, assign: &Assign, lit: Lit, found: &mut Vec<u64>)
    requires in_range { All (All (IsInRange assign.now)) clauses.now }
    requires empty { found.old.items ≡ [] }
    requires room { length clauses.now ≤ vec_capacity found.old }
    ensures found { found.new.items ≡ due_from assign.now lit 1 clauses.now }
    ensures room { vec_capacity found.old ≤ vec_capacity found.new }
{
    let mut i = 0;
    while i < clauses.len() {
        note_due(clauses.at(i).lits(), assign, lit, i as u64 + 1, found);
        i += 1;
    }
}

impl PlainStore {
    /// No clause yet, over the variables from 1 to `vars`.
    pub fn new(alloc: Global, vars: u64) -> Result<PlainStore, OutOfMemory>
        requires { vars < 2 ^ 62 }
        ensures { IfOk result (λ s. s ≡ record { vars = vars; clauses = []; trail = []; found = [] }) }
    {
        Ok(PlainStore {
            clauses: ClauseList::new(alloc),
            trail: LiteralTrail::with_vars(alloc, vars)?,
            found: Vec::new(alloc),
        })
    }
}

impl Store for PlainStore {
    ghost held = { λ s. s };

    fn vars(&self) -> u64 {
        self.trail.vars()
    }

    fn more(&mut self) -> Result<(), OutOfMemory> {
        self.trail.more()?;
        self.found.clear();
        Ok(())
    }

    fn count(&self) -> u64 {
        self.clauses.len() as u64
    }

    fn lits(&self, number: u64) -> &[Lit] {
        self.clauses.at(number as usize - 1).lits()
    }

    fn push(&mut self, lits: &[Lit]) -> Result<(), OutOfMemory> {
        let missing = self.clauses.len() + 1 - self.found.len().min(self.clauses.len());
        self.found.reserve(missing)?;
        self.clauses.push_lits(lits)?;
        self.found.clear();
        Ok(())
    }

    fn trail(&self) -> &[Lit] {
        self.trail.lits()
    }

    fn assign(&self) -> &Assign {
        self.trail.assign()
    }

    fn set(&mut self, lit: Lit) {
        self.trail.set(lit);
        self.found.clear();
        find_due(
            &self.clauses,
            self.trail.assign(),
            lit.neg(),
            &mut self.found,
        );
    }

    fn found(&self) -> &[u64] {
        &self.found
    }

    fn undo(&mut self, keep: u64) {
        self.trail.undo(keep as usize);
        self.found.clear();
    }
}
