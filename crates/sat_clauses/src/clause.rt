//! Clauses and lists of clauses, as data.
//!
//! [`Clause`] is a disjunction of literals, which it keeps as they were given, and [`ClauseList`] a conjunction of
//! clauses. [`Truth`] is what a clause can be under an assignment; [`crate::truth`] tells which. Where a call finds
//! no memory, nothing has changed.
ghost use Rattle.std.specs.Prelude.{◌≡◌, ◌<◌, [], ◌∷◌, ◌++◌, length, IfOk, OnOk, OnErr, ◌↔◌, IsTrue, Some, slice_get};

use crate::lit::Lit;
use base_values::OutOfMemory;
use smallvec::SmallVec;
use std::alloc::Global;
use std::marker::Model;

/// What a clause is under an assignment that may leave variables free.
#[derive(Clone, Copy, Debug, PartialEq, Eq)]
pub enum Truth {
    /// Some literal is true.
    True,
    /// All literals are false.
    False,
    /// This literal of the clause is free, and each other literal is false or this one once more.
    /// It has to be made true if the clause is to be.
    Unit(Lit),
    /// No literal is true, and two different ones are free.
    Unknown,
}

/// The disjunction of its literals, in the order in which they were given. A literal may stand in it
/// twice, or beside its opposite. Up to three literals take no memory beside it, as many as a clause of a gate has.
#[derive(Drop)]
pub struct Clause {
    lits: SmallVec<Lit, 3>,
}

impl Model for Clause {
    ghost use Rattle.std.specs.Prelude.{List};
    ghost use Rattle.sat_clauses.specs.Literal.{Literal};

    ghost Value = { List Literal };

    ghost view = { λ c. c.lits.items };
}

impl Clause {
    /// A clause of these literals, with the allocator for its copies.
    pub fn from_lits(alloc: Global, lits: &[Lit]) -> Result<Clause, OutOfMemory>
        ensures { IfOk result (λ c. c ≡ lits.now) }
    {
        Ok(Clause {
            lits: SmallVec::from_slice(alloc, lits)?,
        })
    }

    /// The literals in order.
    pub fn lits(&self) -> &[Lit]
        ensures { result.now ≡ self.now }
    {
        self.lits.as_slice()
    }

    /// A clause of its own with the same literals.
    pub fn copy(&self) -> Result<Clause, OutOfMemory>
        ensures { IfOk result (λ c. c ≡ self.now) }
    {
        Clause::from_lits(*self.lits.allocator(), self.lits.as_slice())
    }
}

/// The conjunction of its clauses, in the order in which they were appended.
#[derive(Drop)]
pub struct ClauseList {
    clauses: Vec<Clause>,
}

impl Model for ClauseList {
    ghost use Rattle.std.specs.Prelude.{List};
    ghost use Rattle.sat_clauses.specs.Literal.{Literal};

    ghost Value = { List (List Literal) };

    ghost view = { λ l. l.clauses.items };
}

impl ClauseList {
    /// The empty list, which takes no memory and keeps the allocator.
    pub fn new(alloc: Global) -> ClauseList
        ensures { result ≡ [] }
    {
        ClauseList {
            clauses: Vec::new(alloc),
        }
    }

    /// Appends a clause. Where there is no memory the list stays as it was.
    pub fn push(&mut self, clause: Clause) -> Result<(), OutOfMemory>
        ensures ok { OnOk result (self.new ≡ self.old ++ clause ∷ []) }
        ensures err { OnErr result (self.new ≡ self.old) }
    {
        self.clauses.push(clause)?;
        Ok(())
    }

    /// Appends the clause of these literals. Where there is no memory the list stays as it was.
    pub fn push_lits(&mut self, lits: &[Lit]) -> Result<(), OutOfMemory>
        ensures ok { OnOk result (self.new ≡ self.old ++ lits.now ∷ []) }
        ensures err { OnErr result (self.new ≡ self.old) }
    {
        let clause = Clause::from_lits(*self.clauses.allocator(), lits)?;
        self.push(clause)
    }

    /// The number of clauses.
    pub fn len(&self) -> usize
        ensures { result ≡ length self.now }
    {
        self.clauses.len()
    }

    /// Whether there is no clause.
    pub fn is_empty(&self) -> bool
        ensures { IsTrue result ↔ (length self.now ≡ 0) }
    {
        self.clauses.is_empty()
    }

    /// The clause at a place, counted from 0.
    pub fn at(&self, i: usize) -> &Clause
        requires { i < length self.now }
        ensures { slice_get self.now i ≡ Some result.now }
    {
        &self.clauses[i]
    }

    /// The clauses as a slice.
    pub fn as_slice(&self) -> &[Clause]
        ensures { result.now ≡ self.now }
    {
        self.clauses.as_slice()
    }

    /// A list of its own with the same clauses.
    pub fn copy(&self) -> Result<ClauseList, OutOfMemory>
        ensures { IfOk result (λ list. list ≡ self.now) }
    {
        let mut list = ClauseList::new(*self.clauses.allocator());
        for clause in &self.clauses {
            list.push(clause.copy()?)?;
        }
        Ok(list)
    }
}
