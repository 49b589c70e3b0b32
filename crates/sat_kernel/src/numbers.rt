//! The numbers of a kernel's clauses, for who drops clauses and counts those that stay anew.
use crate::clauses::at;
use crate::kernel::Kernel;
use base_values::OutOfMemory;

/// Marks a number, the first of which is 1.
fn mark(marks: &mut [bool], number: u32) {
    let place = (number as usize).wrapping_sub(1);
    if let Some(mark) = marks.get_mut(place) {
        *mark = true;
    }
}

/// The number that stands for another, the first of which is 1; 0 where none does.
fn new_number(numbers: &[u32], number: u32) -> u32 {
    at(numbers, (number as usize).wrapping_sub(1))
}

impl Kernel {
    /// For each of so many numbers, the first of which is 1, whether a clause has it that was not forgotten.
    pub fn numbers(&self, count: u64) -> Result<Vec<bool>, OutOfMemory> {
        let count = u32::try_from(count).or(Err(OutOfMemory))?;
        let mut marks = vec![in self.alloc; false; count as usize]?;
        for place in &self.clauses.places {
            mark(&mut marks, self.number_of(*place));
        }
        for number in &self.trail.units {
            mark(&mut marks, *number);
        }
        Ok(marks)
    }

    /// Has each clause take the number that stands at the place of its own.
    pub fn renumber(&mut self, numbers: &[u32]) {
        for i in 0..self.clauses.places.len() {
            let place = at(&self.clauses.places, i);
            let number = new_number(numbers, self.number_of(place));
            self.clauses.renumber(place, number);
        }
        for number in &mut self.trail.units {
            *number = new_number(numbers, *number);
        }
    }
}
