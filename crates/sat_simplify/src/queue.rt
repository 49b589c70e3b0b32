//! A queue of variables in which those with the fewest clauses come first.
//!
//! To eliminate such a variable costs the least and leaves the shortest resolvents. No proof depends on the order.
use base_values::OutOfMemory;
use sat_clauses::lit::Lit;
use std::alloc::Global;

/// From how many clauses on variables are no longer told apart.
pub const MANY: usize = 64;

/// How often a variable is put into a queue.
pub const TRIES: u8 = 8;

/// Variables, as their literals, by the number of their clauses.
#[derive(Drop)]
pub struct Queue {
    buckets: Vec<Vec<Lit>>,
    /// How often each variable was put in.
    tries: Vec<u8>,
}

impl Queue {
    /// The empty queue for variables below a number.
    pub fn new(alloc: Global, variables: u64) -> Result<Queue, OutOfMemory> {
        let mut buckets = Vec::new(alloc);
        for _ in 0..MANY {
            buckets.push(Vec::new(alloc))?;
        }
        let mut tries = Vec::new(alloc);
        for _ in 0..variables {
            tries.push(0)?;
        }
        Ok(Queue { buckets, tries })
    }

    /// Whether a variable may be put in once more.
    pub fn has_room_for(&self, lit: Lit) -> bool {
        let var = lit.var() as usize;
        var < self.tries.len() && self.tries[var] < TRIES
    }

    /// Puts a variable in that has so many clauses, unless it was too often or there are none.
    pub fn put(&mut self, lit: Lit, count: usize) -> Result<(), OutOfMemory> {
        let var = lit.var() as usize;
        if count == 0 || var >= self.tries.len() || self.tries[var] >= TRIES {
            return Ok(());
        }
        self.tries[var] += 1;
        let at = count.min(MANY) - 1;
        if at < self.buckets.len() {
            self.buckets[at].push(lit)?;
        }
        Ok(())
    }

    /// Takes a variable out that has the fewest clauses.
    pub fn pop(&mut self) -> Option<Lit> {
        for at in 0..self.buckets.len() {
            if let Some(lit) = self.buckets[at].pop() {
                return Some(lit);
            }
        }
        None
    }
}
