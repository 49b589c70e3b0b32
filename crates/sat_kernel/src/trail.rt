//! What a kernel made true: the literals in order, with the level, the reason and the place of each variable.
use crate::clauses::{at, put, small};
use base_values::OutOfMemory;
use std::alloc::Global;

/// Nothing is known of the literal.
pub const FREE: u8 = 0;
/// The literal is true.
pub const TRUE: u8 = 1;
/// The literal is false.
pub const FALSE: u8 = 2;

/// The literals that are true, in order.
#[derive(Drop)]
pub struct KernelTrail {
    /// For each code what is known of the literal.
    pub values: Vec<u8>,
    /// For each variable the level at which it got its value.
    pub levels: Vec<u32>,
    /// For each variable one more than the place of the clause that gave its value, or 0.
    pub reasons: Vec<u32>,
    /// For each variable its place on the trail.
    pub places: Vec<u32>,
    /// For each variable whose value is known before any assumption the number of the clause that says so, or 0.
    pub units: Vec<u32>,
    /// The codes that are true.
    pub codes: Vec<u32>,
    /// How many of them were true when each level began.
    pub ends: Vec<u32>,
    /// How many of them were propagated.
    pub head: usize,
    /// No variable below this one is free.
    pub least: u32,
}

impl KernelTrail {
    /// No variable yet.
    pub fn new(alloc: Global) -> KernelTrail {
        KernelTrail {
            values: Vec::new(alloc),
            levels: Vec::new(alloc),
            reasons: Vec::new(alloc),
            places: Vec::new(alloc),
            units: Vec::new(alloc),
            codes: Vec::new(alloc),
            ends: Vec::new(alloc),
            head: 0,
            least: 1,
        }
    }

    /// One more variable, which is free.
    pub fn more(&mut self) -> Result<(), OutOfMemory> {
        self.values.push(FREE)?;
        self.values.push(FREE)?;
        self.levels.push(0)?;
        self.reasons.push(0)?;
        self.places.push(0)?;
        self.units.push(0)?;
        Ok(())
    }

    /// What is known of a literal.
    pub fn value(&self, code: u32) -> u8 {
        value_in(&self.values, code)
    }

    /// The level that the trail has come to.
    pub fn level(&self) -> usize {
        self.ends.len()
    }

    /// Begins a level.
    pub fn begin_level(&mut self) -> Result<(), OutOfMemory> {
        let end = small(self.codes.len())?;
        self.ends.push(end)?;
        Ok(())
    }

    /// Makes a literal true, by the clause at the place before this number.
    pub fn set(&mut self, code: u32, reason: u32) -> Result<(), OutOfMemory> {
        let var = (code / 2) as usize;
        let level = small(self.ends.len())?;
        let place = small(self.codes.len())?;
        set_value(&mut self.values, code, TRUE);
        set_value(&mut self.values, code ^ 1, FALSE);
        put(&mut self.levels, var, level);
        put(&mut self.reasons, var, reason);
        put(&mut self.places, var, place);
        self.codes.push(code)?;
        Ok(())
    }

    /// Takes back all levels from this one on.
    pub fn undo(&mut self, level: usize) {
        if level >= self.ends.len() {
            return;
        }
        let keep = at(&self.ends, level) as usize;
        for _ in keep..self.codes.len() {
            if let Some(code) = self.codes.pop() {
                set_value(&mut self.values, code, FREE);
                set_value(&mut self.values, code ^ 1, FREE);
                self.least = self.least.min(code / 2);
            }
        }
        self.ends.truncate(level);
        self.head = self.head.min(keep);
    }

    /// The least free variable, if there is one up to this.
    pub fn first_free(&mut self, vars: u32) -> Option<u32> {
        for var in self.least..=vars {
            if self.value(var.wrapping_mul(2)) == FREE {
                self.least = var;
                return Some(var);
            }
        }
        None
    }
}

/// What is known of a literal.
pub fn value_in(values: &[u8], code: u32) -> u8 {
    values.get(code as usize).copied().unwrap_or(FREE)
}

/// Notes what is known of a literal.
fn set_value(values: &mut [u8], code: u32, value: u8) {
    if let Some(old) = values.get_mut(code as usize) {
        *old = value;
    }
}
