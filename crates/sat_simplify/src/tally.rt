//! What the passes ask of a clause base: how many clauses have a literal, and what came or went since they last looked.
//!
//! All of it is kept as clauses come and go, so that nobody walks the clauses to ask. It says what is worth trying, and in which order:
//! no proof depends on it.
use crate::compact::mark;
use base_values::OutOfMemory;
use sat_clauses::lit::Lit;
use std::alloc::Global;

/// Counts of clauses and marks of what changed.
#[derive(Drop)]
pub struct Tally {
    // For each literal, by its code, how many clauses have it.
    counts: Vec<u32>,
    // For each variable, whether a clause with it came or went since it was last tried.
    touched: Vec<bool>,
    // For each slot, whether its clause lost a literal since subsumed clauses were last looked for.
    shorter: Vec<bool>,
}

// Whether a number is marked.
fn is_marked(marks: &[bool], i: usize) -> bool {
    match marks.get(i) {
        Some(mark) => *mark,
        None => false,
    }
}

impl Tally {
    /// No clause.
    pub fn new(alloc: Global) -> Tally {
        Tally {
            counts: Vec::new(alloc),
            touched: Vec::new(alloc),
            shorter: Vec::new(alloc),
        }
    }

    /// How many clauses have a literal.
    pub fn count(&self, lit: Lit) -> usize {
        match self.counts.get(lit.code() as usize) {
            Some(count) => *count as usize,
            None => 0,
        }
    }

    /// Whether a clause with the variable of a literal came or went since it was last tried.
    pub fn is_touched(&self, lit: Lit) -> bool {
        is_marked(&self.touched, lit.var() as usize)
    }

    /// The variable of a literal is tried.
    pub fn settle(&mut self, lit: Lit) {
        let var = lit.var() as usize;
        if var < self.touched.len() {
            self.touched[var] = false;
        }
    }

    /// Whether the clause of a slot lost a literal since subsumed clauses were last looked for.
    pub fn is_shorter(&self, slot: usize) -> bool {
        is_marked(&self.shorter, slot)
    }

    /// Subsumed clauses were looked for.
    pub fn settle_slots(&mut self) {
        self.shorter.clear();
    }

    // One more clause has the literal.
    fn add(&mut self, lit: Lit) -> Result<(), OutOfMemory> {
        let code = lit.code() as usize;
        for _ in self.counts.len()..code.saturating_add(1) {
            self.counts.push(0)?;
        }
        if code < self.counts.len() {
            self.counts[code] = self.counts[code].saturating_add(1);
        }
        mark(&mut self.touched, lit.var() as usize)
    }

    /// One more clause has these literals.
    pub fn add_each(&mut self, lits: &[Lit]) -> Result<(), OutOfMemory> {
        for lit in lits {
            self.add(*lit)?;
        }
        Ok(())
    }

    // One clause fewer has the literal.
    fn remove(&mut self, lit: Lit) {
        let code = lit.code() as usize;
        if code < self.counts.len() {
            self.counts[code] = self.counts[code].saturating_sub(1);
        }
        self.touch(lit);
    }

    // The clauses of the variable of a literal are not what they were.
    fn touch(&mut self, lit: Lit) {
        let var = lit.var() as usize;
        if var < self.touched.len() {
            self.touched[var] = true;
        }
    }

    /// One clause fewer has these literals.
    pub fn remove_each(&mut self, lits: &[Lit]) {
        for lit in lits {
            self.remove(*lit);
        }
    }

    /// The clause of a slot lost a literal, and has these left.
    pub fn shorten(&mut self, slot: usize, lit: Lit, left: &[Lit]) -> Result<(), OutOfMemory> {
        self.remove(lit);
        for other in left {
            self.touch(*other);
        }
        mark(&mut self.shorter, slot)
    }
}
