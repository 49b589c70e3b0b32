//! Unit propagation: each literal that became false has the clauses that watch it watch another literal, or give a value.
use crate::clauses::{at, exchange, put, put_watch};
use crate::kernel::Kernel;
use crate::trail::{FALSE, TRUE, value_in};
use base_values::OutOfMemory;

/// Puts the literal that became false second in the clause at a place, which watches it, and answers the other one that it watches.
fn put_second(codes: &mut [u32], start: usize, falsified: u32) -> u32 {
    let beside = start.saturating_add(1);
    // (it is one of these two, so the other is left)
    let other = at(codes, start) ^ at(codes, beside) ^ falsified;
    put(codes, start, other);
    put(codes, beside, falsified);
    other
}

/// Exchanges the second literal of a clause that lies between two places for the first behind it that is not false, and answers that.
fn replace_second(codes: &mut [u32], start: usize, end: usize, values: &[u8]) -> Option<u32> {
    for place in start.saturating_add(2)..end {
        let code = at(codes, place);
        if value_in(values, code) != FALSE {
            exchange(codes, start.saturating_add(1), place);
            return Some(code);
        }
    }
    None
}

impl Kernel {
    /// Propagates what was made true, up to a clause that is false: its place is answered.
    pub fn propagate(&mut self) -> Result<Option<u32>, OutOfMemory> {
        for _ in 0..u64::MAX {
            let Some(code) = self.trail.codes.get(self.trail.head).copied() else {
                return Ok(None);
            };
            self.trail.head = self.trail.head.saturating_add(1);
            self.set = self.set.saturating_add(1);
            self.listed = self.listed.saturating_add(self.clauses.places.len() as u64);
            if let Some(place) = self.visit_all(code ^ 1)? {
                return Ok(Some(place));
            }
        }
        Ok(None)
    }

    /// Visits the clauses that watch a literal which became false.
    fn visit_all(&mut self, falsified: u32) -> Result<Option<u32>, OutOfMemory> {
        let alloc = self.alloc;
        let Some(list) = self.clauses.watches.get_mut(falsified as usize) else {
            return Ok(None);
        };
        let mut list = std::mem::replace(list, Vec::new(alloc));
        let mut kept = 0;
        let mut broken = None;
        self.visited = self.visited.saturating_add(list.len() as u64);
        for i in 0..list.len() {
            let Some(watch) = list.get(i).copied() else {
                break;
            };
            if broken.is_none() && self.trail.value(watch.glance) != TRUE {
                let glance = self.visit(watch.place, falsified, &mut broken)?;
                if let Some(glance) = glance {
                    put_watch(&mut list, kept, watch.place, glance);
                    kept = kept.saturating_add(1);
                }
            } else {
                put_watch(&mut list, kept, watch.place, watch.glance);
                kept = kept.saturating_add(1);
            }
        }
        list.truncate(kept);
        if let Some(empty) = self.clauses.watches.get_mut(falsified as usize) {
            *empty = list;
        }
        Ok(broken)
    }

    /// Visits a clause: a literal of it is answered where it goes on watching the same, and it is noted where it is false.
    fn visit(
        &mut self,
        place: u32,
        falsified: u32,
        broken: &mut Option<u32>,
    ) -> Result<Option<u32>, OutOfMemory> {
        let start = place as usize;
        let end = self.clauses.end_of(start);
        let first = put_second(&mut self.clauses.codes, start, falsified);
        let known = self.trail.value(first);
        if known == TRUE {
            return Ok(Some(first));
        }
        if let Some(code) = replace_second(
            &mut self.clauses.codes,
            start,
            end,
            &self.trail.values,
        ) {
            self.clauses.watch(code, place, first)?;
            return Ok(None);
        }
        if known == FALSE {
            *broken = Some(place);
        } else {
            self.trail.set(first, place.saturating_add(1))?;
        }
        Ok(Some(first))
    }
}
