//! What is learned from a clause that is false, and which assumptions refute another one.
use crate::clauses::{at, exchange, put, small};
use crate::kernel::Kernel;
use base_values::OutOfMemory;
use sat_clauses::clause::Clause;
use sat_clauses::lit::Lit;
use sat_clauses::step::{HintList, Step};

/// The literal with a code, where it is one.
pub fn literal(code: u32) -> Option<Lit> {
    if code < 2 {
        return None;
    }
    Some(Lit::new(u64::from(code / 2), code % 2 == 1))
}

impl Kernel {
    /// Notes that the clause of this number is used where the trail has come to a place.
    fn note_used(&mut self, place: u32, number: u32) -> Result<(), OutOfMemory> {
        self.used.push(u64::from(place) << 32 | u64::from(number))?;
        Ok(())
    }

    /// Notes that the clause is used which says the value of a variable that is known without assumptions. Where there is none yet it is
    /// owed, and its number is seen when the step is made.
    fn note_unit(&mut self, var: usize) -> Result<(), OutOfMemory> {
        let unit = at(&self.trail.units, var);
        let place = at(&self.trail.places, var);
        if unit == 0 {
            self.owed.push(place)?;
        }
        self.note_used(place, unit)
    }

    /// The number of a clause that is used, by its key: that of the literal at a place of the trail where it has none.
    fn number_in(&self, key: u64) -> u64 {
        let number = key & 0xffff_ffff;
        if number != 0 {
            return number;
        }
        let code = at(&self.trail.codes, (key >> 32) as usize);
        u64::from(at(&self.trail.units, (code / 2) as usize))
    }

    /// Marks a variable, and answers whether it was not marked.
    fn mark(&mut self, var: usize) -> Result<bool, OutOfMemory> {
        let Some(mark) = self.marks.get_mut(var) else {
            return Ok(false);
        };
        if *mark {
            return Ok(false);
        }
        *mark = true;
        self.marked.push(var)?;
        Ok(true)
    }

    /// Whether a variable is marked.
    fn is_marked(&self, var: usize) -> bool {
        self.marks.get(var).copied().unwrap_or(false)
    }

    /// Takes all marks away.
    fn unmark(&mut self) {
        for _ in 0..self.marked.len() {
            if let Some(var) = self.marked.pop() {
                if let Some(mark) = self.marks.get_mut(var) {
                    *mark = false;
                }
            }
        }
    }

    /// Marks the variables of a clause. Those whose value is known without assumptions are used at once, those of this level are
    /// counted, and the literals of the others are what is learned.
    fn mark_clause(&mut self, place: u32, level: u32) -> Result<u32, OutOfMemory> {
        let mut count = 0u32;
        let length = self.lits_of(place).len();
        for i in 0..length {
            let code = at(self.lits_of(place), i);
            let var = (code / 2) as usize;
            if !self.mark(var)? {
                continue;
            }
            let its = at(&self.trail.levels, var);
            if its == 0 {
                self.note_unit(var)?;
            } else if its == level {
                count = count.saturating_add(1);
            } else {
                self.learned.push(code)?;
            }
        }
        Ok(count)
    }

    /// Learns from the clause at a place, which is false: the codes are in `learned`, that which is to be true first and one of the level
    /// to go back to second; that level is answered.
    pub fn analyse(&mut self, place: u32) -> Result<usize, OutOfMemory> {
        self.learned.clear();
        self.learned.push(0)?;
        self.used.clear();
        let level = small(self.trail.level())?;
        let end = small(self.trail.codes.len())?;
        let number = self.number_of(place);
        self.note_used(end, number)?;
        let mut open = self.mark_clause(place, level)?;
        for i in (0..self.trail.codes.len()).rev() {
            let code = at(&self.trail.codes, i);
            let var = (code / 2) as usize;
            if !self.is_marked(var) || at(&self.trail.levels, var) != level {
                continue;
            }
            open = open.saturating_sub(1);
            let reason = at(&self.trail.reasons, var);
            if open == 0 || reason == 0 {
                put(&mut self.learned, 0, code ^ 1);
                break;
            }
            let by = reason.saturating_sub(1);
            let number = self.number_of(by);
            self.note_used(small(i)?, number)?;
            open = open.saturating_add(self.mark_clause(by, level)?);
        }
        self.minimise()?;
        self.unmark();
        Ok(self.second_level())
    }

    /// Whether the clause that gave a literal its value has, beside it, only literals that are learned or known without assumptions.
    fn is_implied(&self, var: usize) -> bool {
        let reason = at(&self.trail.reasons, var);
        if reason == 0 {
            return false;
        }
        self.clauses
            .lits(reason.saturating_sub(1))
            .iter()
            .all(|code| {
                let other = (*code / 2) as usize;
                other == var || self.is_marked(other) || at(&self.trail.levels, other) == 0
            })
    }

    /// Leaves out the literals that the others imply.
    fn minimise(&mut self) -> Result<(), OutOfMemory> {
        let mut kept = 1;
        for i in 1..self.learned.len() {
            let code = at(&self.learned, i);
            let var = (code / 2) as usize;
            if self.is_implied(var) {
                let by = at(&self.trail.reasons, var).saturating_sub(1);
                let place = at(&self.trail.places, var);
                let number = self.number_of(by);
                self.note_used(place, number)?;
                self.note_units(by)?;
            } else {
                put(&mut self.learned, kept, code);
                kept = kept.saturating_add(1);
            }
        }
        self.learned.truncate(kept);
        Ok(())
    }

    /// Uses the clauses that say the values which are known without assumptions of literals of a clause.
    fn note_units(&mut self, place: u32) -> Result<(), OutOfMemory> {
        let length = self.lits_of(place).len();
        for i in 0..length {
            let var = (at(self.lits_of(place), i) / 2) as usize;
            if at(&self.trail.levels, var) == 0 && self.mark(var)? {
                self.note_unit(var)?;
            }
        }
        Ok(())
    }

    /// Puts a literal of the highest level among those after the first second, and answers that level.
    fn second_level(&mut self) -> usize {
        let mut best = 0u32;
        let mut place = 1;
        for i in 1..self.learned.len() {
            let level = at(&self.trail.levels, (at(&self.learned, i) / 2) as usize);
            if level > best {
                best = level;
                place = i;
            }
        }
        exchange(&mut self.learned, 1, place);
        best as usize
    }

    /// Learns which assumptions refute one whose negation is true: the codes are in `learned`.
    pub fn refute(&mut self, assumption: u32) -> Result<(), OutOfMemory> {
        self.learned.clear();
        self.used.clear();
        self.learned.push(assumption ^ 1)?;
        let var = (assumption / 2) as usize;
        let _is_new = self.mark(var)?;
        if at(&self.trail.levels, var) == 0 {
            self.note_unit(var)?;
            self.unmark();
            return Ok(());
        }
        // (so many marked variables are left, of those whose value is not known without assumptions)
        let mut open = 1usize;
        for i in (0..self.trail.codes.len()).rev() {
            if open == 0 {
                break;
            }
            let code = at(&self.trail.codes, i);
            let here = (code / 2) as usize;
            if !self.is_marked(here) || at(&self.trail.levels, here) == 0 {
                continue;
            }
            open = open.saturating_sub(1);
            let reason = at(&self.trail.reasons, here);
            if reason == 0 {
                self.learned.push(code ^ 1)?;
                continue;
            }
            let by = reason.saturating_sub(1);
            let number = self.number_of(by);
            self.note_used(small(i)?, number)?;
            // (no variable has this level, so all are marked and none is learned but by its place on the trail)
            let learned = self.learned.len();
            let _count = self.mark_clause(by, u32::MAX)?;
            open = open.saturating_add(self.learned.len().saturating_sub(learned));
            self.learned.truncate(learned);
        }
        self.unmark();
        Ok(())
    }

    /// Has the literal with a code follow, or nothing where it is 0, by the clause at a place, whose other literals are known to be
    /// false without assumptions.
    pub fn imply(&mut self, code: u32, place: u32) -> Result<(), OutOfMemory> {
        self.learned.clear();
        self.used.clear();
        if code >= 2 {
            self.learned.push(code)?;
            let _is_new = self.mark((code / 2) as usize)?;
        }
        self.note_units(place)?;
        let number = self.number_of(place);
        self.note_used(u32::MAX, number)?;
        self.unmark();
        Ok(())
    }

    /// What was learned, with its hints, as a step.
    pub fn step(&mut self) -> Result<Step, OutOfMemory> {
        let alloc = self.alloc;
        self.used.sort()?;
        let mut hints = HintList::new(alloc);
        for i in 0..self.used.len() {
            let key = self.used.get(i).copied().unwrap_or(0);
            hints.push(self.number_in(key))?;
        }
        self.lits.clear();
        for code in &self.learned {
            if let Some(lit) = literal(*code) {
                self.lits.push(lit)?;
            }
        }
        Ok(Step {
            clause: Clause::from_lits(alloc, self.lits.as_slice())?,
            hints,
        })
    }
}
