//! The clauses of a kernel: codes of literals, one clause behind the other, and the lists of those that watch a literal.
use base_values::OutOfMemory;
use std::alloc::Global;

/// A clause that watches a literal.
#[derive(Clone, Copy)]
pub struct Watch {
    /// The place of the clause.
    pub place: u32,
    /// A literal of it: where that is true nothing has to be done.
    pub glance: u32,
}

/// The clauses by place, and those that watch each literal by its code.
#[derive(Drop)]
pub struct Clauses {
    /// For each clause its number for who asks, from 1, then its length, and at its place the first of its literals.
    pub codes: Vec<u32>,
    /// The places of all clauses.
    pub places: Vec<u32>,
    pub watches: Vec<Vec<Watch>>,
}

/// The number at a place, or 0.
pub fn at(numbers: &[u32], place: usize) -> u32 {
    numbers.get(place).copied().unwrap_or(0)
}

/// Writes the number at a place.
pub fn put(numbers: &mut [u32], place: usize, number: u32) {
    if let Some(old) = numbers.get_mut(place) {
        *old = number;
    }
}

/// Exchanges the numbers at two places.
pub fn exchange(numbers: &mut [u32], one: usize, other: usize) {
    let was = at(numbers, one);
    let now = at(numbers, other);
    put(numbers, one, now);
    put(numbers, other, was);
}

/// Writes a watch at a place.
pub fn put_watch(list: &mut [Watch], at: usize, place: u32, glance: u32) {
    if let Some(old) = list.get_mut(at) {
        *old = Watch { place, glance };
    }
}

/// A length as a small number, where it is one.
pub fn small(length: usize) -> Result<u32, OutOfMemory> {
    u32::try_from(length).or(Err(OutOfMemory))
}

impl Clauses {
    /// No clause, and no literal.
    pub fn new(alloc: Global) -> Clauses {
        Clauses {
            codes: Vec::new(alloc),
            places: Vec::new(alloc),
            watches: Vec::new(alloc),
        }
    }

    /// Makes a list for the codes of one more variable.
    pub fn more(&mut self) -> Result<(), OutOfMemory> {
        let alloc = *self.watches.allocator();
        self.watches.push(Vec::new(alloc))?;
        self.watches.push(Vec::new(alloc))?;
        Ok(())
    }

    /// The codes of the clause at a place.
    pub fn lits(&self, place: u32) -> &[u32] {
        let start = place as usize;
        self.codes.get(start..self.end_of(start)).unwrap_or(&[])
    }

    /// Where the clause ends whose literals begin at a place.
    pub fn end_of(&self, start: usize) -> usize {
        let length = at(&self.codes, start.wrapping_sub(1));
        start.saturating_add(length as usize)
    }

    /// Appends a clause that nobody watches for yet, and answers its place.
    pub fn append(&mut self, codes: &[u32], number: u32) -> Result<u32, OutOfMemory> {
        let length = small(codes.len())?;
        self.codes.push(number)?;
        self.codes.push(length)?;
        let place = small(self.codes.len())?;
        self.codes.extend_from_slice(codes)?;
        self.places.push(place)?;
        Ok(place)
    }

    /// Has a clause watch a literal.
    pub fn watch(&mut self, code: u32, place: u32, glance: u32) -> Result<(), OutOfMemory> {
        match self.watches.get_mut(code as usize) {
            Some(list) => {
                list.push(Watch { place, glance })?;
                Ok(())
            }
            None => Ok(()),
        }
    }

    /// Has the clause at a place watch its first two literals.
    pub fn attach(&mut self, place: u32) -> Result<(), OutOfMemory> {
        let lits = self.lits(place);
        if lits.len() < 2 {
            return Ok(());
        }
        let first = at(lits, 0);
        let second = at(lits, 1);
        self.watch(first, place, second)?;
        self.watch(second, place, first)
    }

    /// The number of the clause at a place, for who asks.
    pub fn number_at(&self, place: u32) -> u32 {
        at(&self.codes, (place as usize).wrapping_sub(2))
    }

    /// Has the clause at a place take another number.
    pub fn renumber(&mut self, place: u32, number: u32) {
        put(&mut self.codes, (place as usize).wrapping_sub(2), number);
    }
}
