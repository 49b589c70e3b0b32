//! The clauses of a checker, one after the other in one list of literals.
ghost use Rattle.std.specs.Prelude.{◌≡◌, ◌↔◌, ◌+◌, ◌<◌, ◌≤◌, [], ◌∷◌, ◌++◌, length, IsTrue, OnOk, OnErr, Some, slice_get};

use crate::lit::Lit;
use base_values::OutOfMemory;
use std::alloc::Global;
use std::marker::Model;

/// Where the literals of one clause lie, from `start` up to but not including `end`.
#[derive(Clone, Copy)]
pub struct LiteralSpan {
    start: usize,
    end: usize,
}

/// A list of clauses whose literals lie in one vector, with room that was reserved for more. The room is
/// counted in fields, since a vector does not promise that its capacity stays.
#[derive(Drop)]
pub struct ClauseStore {
    lits: Vec<Lit>,
    spans: Vec<LiteralSpan>,
    spare_clauses: usize,
    spare_lits: usize,
}

impl Model for ClauseStore {
    ghost use Rattle.sat_clauses.specs.DeriveStoreRecord.{Store};

    ghost Value = { Store };

    ghost use Rattle.sat_clauses.specs.DeriveStore.{store_of, IsSound};

    ghost view = { store_of };

    ghost invariant = { IsSound };
}

impl ClauseStore {
    /// The empty list, with no room.
    pub fn new(alloc: Global) -> ClauseStore
        ensures clauses { result.clauses ≡ [] }
        ensures spare_clauses { result.spare_clauses ≡ 0 }
        ensures spare_lits { result.spare_lits ≡ 0 }
    {
        ClauseStore {
            lits: Vec::new(alloc),
            spans: Vec::new(alloc),
            spare_clauses: 0,
            spare_lits: 0,
        }
    }

    /// The number of clauses.
    pub fn len(&self) -> usize
        ensures { result ≡ length self.now.clauses }
    {
        self.spans.len()
    }

    /// Whether one more clause with so many literals has room.
    pub fn has_room_for(&self, lits: usize) -> bool
        ensures { IsTrue result ↔ ((1 ≤ self.now.spare_clauses) × (lits ≤ self.now.spare_lits)) }
    {
        1 <= self.spare_clauses && lits <= self.spare_lits
    }

    /// The literals of the clause at a place, counted from 0.
    pub fn lits(&self, i: usize) -> &[Lit]
        requires { i < length self.now.clauses }
        ensures { slice_get self.now.clauses i ≡ Some result.now }
    {
        let span = self.spans[i];
        &self.lits[span.start..span.end]
    }

    /// Makes room for so many more clauses, and so many literals in all of them.
    pub fn reserve(&mut self, clauses: usize, lits: usize) -> Result<(), OutOfMemory>
        ensures clauses { self.new.clauses ≡ self.old.clauses }
        ensures spare_clauses { OnOk result (clauses ≤ self.new.spare_clauses) }
        ensures spare_lits { OnOk result (lits ≤ self.new.spare_lits) }
        ensures more_clauses { self.old.spare_clauses ≤ self.new.spare_clauses }
        ensures more_lits { self.old.spare_lits ≤ self.new.spare_lits }
        ensures err { OnErr result (self.new ≡ self.old) }
    {
        self.spans.reserve(clauses)?;
        self.lits.reserve(lits)?;
        self.spare_clauses = self.spare_clauses.max(clauses);
        self.spare_lits = self.spare_lits.max(lits);
        Ok(())
    }

    /// Appends a clause into new memory, and leaves the room as it is.
    pub fn push(&mut self, lits: &[Lit]) -> Result<(), OutOfMemory>
        ensures ok { OnOk result (self.new ≡ record self.old { clauses = self.old.clauses ++ lits.now ∷ [] }) }
        ensures err { OnErr result (self.new ≡ self.old) }
    {
        let clauses = self.spare_clauses.checked_add(1).ok_or(OutOfMemory)?;
        let more = self.spare_lits.checked_add(lits.len()).ok_or(OutOfMemory)?;
        self.spans.reserve(clauses)?;
        self.lits.reserve(more)?;
        self.spare_clauses = clauses;
        self.spare_lits = more;
        self.push_reserved(lits);
        Ok(())
    }

    /// Appends a clause into the room. Takes no memory.
    pub fn push_reserved(&mut self, lits: &[Lit])
        requires clauses { 1 ≤ self.old.spare_clauses }
        requires lits { length lits.now ≤ self.old.spare_lits }
        ensures clauses { self.new.clauses ≡ self.old.clauses ++ lits.now ∷ [] }
        ensures spare_clauses { self.new.spare_clauses + 1 ≡ self.old.spare_clauses }
        ensures spare_lits { self.new.spare_lits + length lits.now ≡ self.old.spare_lits }
    {
        let start = self.lits.len();
        self.lits.extend_from_slice(lits).unwrap();
        let end = self.lits.len();
        self.spans.push(LiteralSpan { start, end }).unwrap();
        self.spare_clauses -= 1;
        self.spare_lits -= lits.len();
    }
}
