//! A store of clauses in which two literals of each clause are watched.
//!
//! Each clause is filed twice: in one table under its first watched literal, and in the other under its second.
//! Where a literal becomes false, [`crate::pass`] visits the clauses that watch it. Where literals are taken
//! back, nothing is done: what `IsWatched` says holds after every beginning of the trail.
ghost use Rattle.std.specs.Prelude.{◌≡◌, ◌≢◌, ℕ, ◌+◌, ◌^◌, ◌<◌, ◌≤◌, [], length, IfOk, OnOk};
ghost use Rattle.sat_solver.specs.Threads.{at};

use crate::pass::pass;
use crate::pick::pick;
use crate::threads::Threads;
use base_values::OutOfMemory;
use sat_clauses::assign::Assign;
use sat_clauses::clause_store::ClauseStore;
use sat_clauses::lit::Lit;
use sat_clauses::store::Store;
use sat_clauses::trail::LiteralTrail;
use std::alloc::Global;
use std::marker::Model;

/// A flat store of clauses with two watched literals.
#[derive(Drop)]
pub struct Arena {
    clauses: ClauseStore,
    trail: LiteralTrail,
    // Under the code of each literal, the clauses of which it is the first, or the second, watched one.
    firsts: Threads,
    seconds: Threads,
    found: Vec<u64>,
    // How many literals were made true, how many clauses were visited, and how many a store would have visited that looks
    // through all: of these contracts see nothing.
    set: u64,
    visited: u64,
    listed: u64,
}

impl Model for Arena {
    ghost use Rattle.sat_clauses.specs.StoreRecord.{StoreValue};

    ghost Value = { StoreValue };

    ghost use Rattle.sat_solver.specs.Arena.{arena_of, IsSound};

    ghost view = { arena_of };

    ghost invariant = { IsSound };
}

// Sees to it that there is a number, in no list where it is new.
fn make_known(threads: &mut Threads, number: usize) -> Result<(), OutOfMemory>
    requires { number ≤ length threads.old.homes }
    ensures lists { threads.new.lists ≡ threads.old.lists }
    ensures homes { (i : ℕ) → at threads.new.homes i ≡ at threads.old.homes i }
    ensures known { OnOk result (number < length threads.new.homes) }
    ensures longer { length threads.old.homes ≤ length threads.new.homes }
    ensures bound { length threads.new.homes ≤ length threads.old.homes + 1 }
{
    if threads.len() <= number {
        threads.add()?;
    }
    Ok(())
}

// Files a number that is in no list, unless the list is 0.
fn file(threads: &mut Threads, list: u64, number: usize)
    requires within { list < threads.old.lists }
    requires known { number < length threads.old.homes }
    requires free { at threads.old.homes number ≡ 0 }
    ensures lists { threads.new.lists ≡ threads.old.lists }
    ensures places { length threads.new.homes ≡ length threads.old.homes }
    ensures here { at threads.new.homes number ≡ list }
    ensures others { (i : ℕ) → i ≢ number → at threads.new.homes i ≡ at threads.old.homes i }
{
    if list > 0 {
        threads.push(list, number);
    }
}

impl Arena {
    /// No clause yet, over the variables from 1 to `vars`.
    pub fn new(alloc: Global, vars: u64) -> Result<Arena, OutOfMemory>
        requires { vars < 2 ^ 62 }
        ensures { IfOk result (λ s. s ≡ record { vars = vars; clauses = []; trail = []; found = [] }) }
    {
        let lists = 2 * vars as usize + 2;
        Ok(Arena {
            clauses: ClauseStore::new(alloc),
            trail: LiteralTrail::with_vars(alloc, vars)?,
            firsts: Threads::new(alloc, lists)?,
            seconds: Threads::new(alloc, lists)?,
            found: Vec::new(alloc),
            set: 0,
            visited: 0,
            listed: 0,
        })
    }

    /// The clauses, as they lie.
    pub(crate) fn stored(&self) -> &ClauseStore
        ensures { result.now.clauses ≡ self.now.clauses }
    {
        &self.clauses
    }

    /// Takes over what another store has done so far.
    pub(crate) fn take_work(&mut self, of: &Arena)
        ensures { self.new ≡ self.old }
    {
        self.set = of.set;
        self.visited = of.visited;
        self.listed = of.listed;
    }

    /// How many literals were made true so far, one for each time, up to the end of a 64-bit number.
    pub fn literals_set(&self) -> u64 {
        self.set
    }

    /// How many clauses were visited so far, one for each time, up to the end of a 64-bit number.
    pub fn visited(&self) -> u64 {
        self.visited
    }

    /// How many clauses a store that looks through all of them for each literal would have visited, up to the end of a
    /// 64-bit number.
    pub fn listed(&self) -> u64 {
        self.listed
    }
}

impl Store for Arena {
    ghost held = { λ s. s };

    fn vars(&self) -> u64 {
        self.trail.vars()
    }

    fn more(&mut self) -> Result<(), OutOfMemory> {
        self.firsts.add_list()?;
        self.firsts.add_list()?;
        self.seconds.add_list()?;
        self.seconds.add_list()?;
        self.trail.more()?;
        self.found.clear();
        Ok(())
    }

    fn count(&self) -> u64 {
        self.clauses.len() as u64
    }

    fn lits(&self, number: u64) -> &[Lit] {
        self.clauses.lits(number as usize - 1)
    }

    fn push(&mut self, lits: &[Lit]) -> Result<(), OutOfMemory> {
        let place = self.clauses.len();
        let first = pick(lits, &self.trail, 0);
        let second = pick(lits, &self.trail, first);
        let places = self
            .firsts
            .len()
            .checked_add(self.seconds.len())
            .ok_or(OutOfMemory)?;
        let room = places.checked_add(2).ok_or(OutOfMemory)?;
        self.found.reserve(room)?;
        make_known(&mut self.firsts, place)?;
        make_known(&mut self.seconds, place)?;
        self.clauses.push(lits)?;
        file(&mut self.firsts, first, place);
        file(&mut self.seconds, second, place);
        self.found.clear();
        Ok(())
    }

    fn trail(&self) -> &[Lit] {
        self.trail.lits()
    }

    fn assign(&self) -> &Assign {
        self.trail.assign()
    }

    fn set(&mut self, lit: Lit) {
        self.trail.set(lit);
        self.found.clear();
        let last = lit.neg();
        let by_first = pass(
            &mut self.firsts,
            &self.seconds,
            &self.clauses,
            self.trail.assign(),
            last,
            &mut self.found,
        );
        let by_second = pass(
            &mut self.seconds,
            &self.firsts,
            &self.clauses,
            self.trail.assign(),
            last,
            &mut self.found,
        );
        self.set = self.set.saturating_add(1);
        self.visited = self
            .visited
            .saturating_add(by_first.saturating_add(by_second));
        self.listed = self.listed.saturating_add(self.clauses.len() as u64);
    }

    fn found(&self) -> &[u64] {
        &self.found
    }

    fn undo(&mut self, keep: u64) {
        self.trail.undo(keep as usize);
        self.found.clear();
    }
}
