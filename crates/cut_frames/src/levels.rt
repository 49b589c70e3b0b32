//! Each clause of the frames once, with the number of the highest frame in which it holds: it stands in the frames up to that
//! one. The frame of number i is then all clauses whose number is i or more, and a clause goes to the next frame by a
//! change of its number. A clause that says no more than a new one, in none but the frames of that one, goes.
//! Contracts see the frames as `frames_of` lists them (`specs/Levels.antt`).
ghost use Rattle.std.specs.Prelude.{◌≡◌, ◌≢◌, ◌<◌, [], length, slice_set, IfOk, OnOk, OnErr, IsTrue, All, false};
ghost use Rattle.sat_simplify.specs.Resolution.{has_literal, subsumes};
ghost use Rattle.cut_frames.specs.Levels.{standing_in, held_at, outdone, with_clause, IsFilledLevel};

use base_values::OutOfMemory;
use sat_clauses::clause::{Clause, ClauseList};
use sat_clauses::lit::Lit;
use std::alloc::Global;

/// A clause, and the number of the highest frame in which it holds.
#[derive(Drop)]
pub struct Held {
    /// The clause, over state bits now.
    pub clause: Clause,
    /// The number of the last frame in which it stands.
    pub highest: usize,
}

/// The clauses of the frames of numbers 0 to the last.
#[derive(Drop)]
pub struct Levels {
    /// The clauses, as they came.
    pub held: Vec<Held>,
    /// The number of the last frame, the frontier.
    pub last: usize,
}

/// Whether the literal is one of these.
fn has(lits: &[Lit], lit: Lit) -> bool
    ensures { result ≡ has_literal lit lits.now }
{
    lits.contains(&lit)
}

/// Whether each literal of the one clause is in the other.
fn is_within(lits: &[Lit], others: &[Lit]) -> bool
    ensures { result ≡ subsumes lits.now others.now }
{
    lits.iter().all(|lit| has(others, *lit))
}

/// Whether a clause says no more than the one of these literals does in the frames up to a number.
fn is_outdone(held: &Held, highest: usize, lits: &[Lit]) -> bool
    ensures { result ≡ outdone highest lits.now held.now }
{
    held.highest <= highest
        && lits.len() <= held.clause.lits().len()
        && is_within(lits, held.clause.lits())
}

impl Levels {
    /// The frame of number 0 without clauses; takes no memory.
    pub fn new(alloc: Global) -> Levels
        ensures held { result.held.items ≡ [] }
        ensures last { result.last ≡ 0 }
    {
        Levels {
            held: Vec::new(alloc),
            last: 0,
        }
    }

    /// Puts a clause into the frames up to a number, in the place of those that say no more there and stand in no higher
    /// frame. Where there is no memory all stays as it was.
    pub fn put(&mut self, highest: usize, clause: Clause) -> Result<(), OutOfMemory>
        ensures last { self.new.last ≡ self.old.last }
        ensures ok { OnOk result (self.new.held.items ≡ with_clause highest clause self.old.held.items) }
        ensures err { OnErr result (self.new.held.items ≡ self.old.held.items) }
    {
        self.held.reserve(1)?;
        self.held
            .retain(|held| !is_outdone(held, highest, clause.lits()));
        self.held.push_reserved(Held { clause, highest });
        Ok(())
    }

    /// The number of the clause of a place.
    pub fn number_at(&self, k: usize) -> usize
        requires { k < length self.now.held.items }
        ensures { result ≡ (held_at self.now k).highest }
    {
        self.held[k].highest
    }

    /// The clause of a place.
    pub fn clause_at(&self, k: usize) -> &Clause
        requires { k < length self.now.held.items }
        ensures { result.now ≡ (held_at self.now k).clause }
    {
        &self.held[k].clause
    }

    /// Gives the clause of a place another number.
    pub fn raise(&mut self, k: usize, highest: usize)
        requires { k < length self.old.held.items }
        ensures last { self.new.last ≡ self.old.last }
        ensures items { self.new.held.items
            ≡ slice_set self.old.held.items k (record { clause = (held_at self.old k).clause; highest = highest }) }
    {
        self.held[k].highest = highest;
    }

    /// Whether no clause has this number: the frame of the number and the next are then equal.
    pub fn is_level_empty(&self, i: usize) -> bool
        ensures empty { IsTrue result → All (λ h. h.highest ≢ i) self.now.held.items }
        ensures filled { result ≡ false → IsFilledLevel self.now i }
    {
        for held in &self.held {
            if held.highest == i {
                return false;
            }
        }
        true
    }

    /// The clauses of the frame of a number, in a list of its own.
    pub fn copy_frame(&self, i: usize) -> Result<ClauseList, OutOfMemory>
        ensures { IfOk result (λ list. list ≡ standing_in i self.now.held.items) }
    {
        let mut list = ClauseList::new(*self.held.allocator());
        for held in &self.held {
            if i <= held.highest {
                list.push(held.clause.copy()?)?;
            }
        }
        Ok(list)
    }
}
