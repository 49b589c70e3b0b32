//! Numbers that are filed in lists, each list threaded through one array.
//!
//! Contracts see in which list each number is filed, and not its place there. A number goes from one list to
//! another without taking memory.
ghost use Rattle.std.specs.Prelude.{◌≡◌, ◌≢◌, ℕ, ◌+◌, ◌<◌, [], ◌∷◌, ◌++◌, length, slice_set, IfOk, IfSome, IfNone, OnOk, OnErr};
ghost use Rattle.sat_solver.specs.Threads.{at};

use base_values::OutOfMemory;
use std::alloc::Global;
use std::marker::Model;

/// The numbers from 0 on, each in one list or in none. List 0 is none.
#[derive(Drop)]
pub struct Threads {
    // For each list one more than its first number, or 0.
    heads: Vec<u64>,
    // For each number one more than the next one of its list, or 0.
    next: Vec<u64>,
    // For each number its list.
    homes: Vec<u64>,
}

impl Model for Threads {
    ghost use Rattle.sat_solver.specs.ThreadsRecord.{ThreadsValue};

    ghost Value = { ThreadsValue };

    ghost use Rattle.sat_solver.specs.Threads.{threads_of, IsSound};

    ghost view = { threads_of };

    ghost invariant = { IsSound };
}

impl Threads {
    /// So many empty lists, with list 0, and no number.
    pub fn new(alloc: Global, lists: usize) -> Result<Threads, OutOfMemory>
        requires { 0 < lists }
        ensures { IfOk result (λ t. t ≡ record { lists = lists; homes = [] }) }
    {
        Ok(Threads {
            heads: vec![in alloc; 0; lists]?,
            next: Vec::new(alloc),
            homes: Vec::new(alloc),
        })
    }

    /// How many numbers there are.
    pub fn len(&self) -> usize
        ensures { result ≡ length self.now.homes }
    {
        self.homes.len()
    }

    /// The list of a number, or 0.
    pub fn home(&self, number: usize) -> u64
        requires { number < length self.now.homes }
        ensures value { result ≡ at self.now.homes number }
        ensures within { result < self.now.lists }
    {
        self.homes[number]
    }

    /// One more list.
    pub fn add_list(&mut self) -> Result<(), OutOfMemory>
        ensures ok { OnOk result (self.new ≡ record self.old { lists = self.old.lists + 1 }) }
        ensures err { OnErr result (self.new ≡ self.old) }
    {
        self.heads.push(0)?;
        Ok(())
    }

    /// One more number, in no list.
    pub fn add(&mut self) -> Result<(), OutOfMemory>
        ensures ok { OnOk result (self.new ≡ record self.old { homes = self.old.homes ++ 0 ∷ [] }) }
        ensures err { OnErr result (self.new ≡ self.old) }
    {
        self.next.reserve(1)?;
        self.homes.push(0)?;
        self.next.push(0).unwrap();
        Ok(())
    }

    /// Takes a number out of a list, if it has any.
    pub fn pop(&mut self, list: u64) -> Option<usize>
        requires positive { 0 < list }
        requires within { list < self.old.lists }
        ensures was { IfSome result (λ n. at self.old.homes n ≡ list) }
        ensures taken { IfSome result (λ n. self.new ≡ record self.old { homes = slice_set self.old.homes n 0 }) }
        ensures empty { IfNone result ((n : ℕ) → at self.old.homes n ≢ list) }
        ensures same { IfNone result (self.new ≡ self.old) }
    {
        let head = self.heads[list as usize];
        if head == 0 {
            return None;
        }
        let number = (head - 1) as usize;
        self.heads[list as usize] = self.next[number];
        self.homes[number] = 0;
        Some(number)
    }

    /// Files a number in a list.
    pub fn push(&mut self, list: u64, number: usize)
        requires positive { 0 < list }
        requires within { list < self.old.lists }
        requires known { number < length self.old.homes }
        requires free { at self.old.homes number ≡ 0 }
        ensures { self.new ≡ record self.old { homes = slice_set self.old.homes number list } }
    {
        self.next[number] = self.heads[list as usize];
        self.heads[list as usize] = number as u64 + 1;
        self.homes[number] = list;
    }
}
