//! The clauses of a search that are alive: those that were added, and of the learned ones those that a kernel has not forgotten.
//!
//! [`still_alive`] copies them in their order and tells the kernel their new numbers. The kernel is not trusted: whatever it says that it
//! has, each clause that was added stays, and no clause comes in that was not there.
ghost use Rattle.std.specs.Prelude.{◌≡◌, ◌+◌, ◌^◌, ◌<◌, All, IfOk, OnOk, IsTrue, true, false, [], length, slice_index_or};
ghost use Rattle.sat_clauses.specs.Derivation.{IsUpTo};
ghost use Rattle.sat_solver.specs.LivingClauses.{IsAlive};

use crate::arena::Arena;
use crate::proposed::is_learned;
use base_values::OutOfMemory;
use sat_clauses::store::Store;
use sat_kernel::Kernel;
use std::alloc::Global;

/// Clauses that stay.
#[derive(Drop)]
pub(crate) struct Alive {
    pub store: Arena,
    /// For each of them whether it was learned.
    pub marks: Vec<bool>,
    /// For each clause that was looked at its new number, or 0: of this contracts see nothing.
    pub numbers: Vec<u32>,
}

impl Alive {
    /// No clause yet, over the variables of a store, whose work it goes on with.
    fn new(alloc: Global, store: &Arena) -> Result<Alive, OutOfMemory>
        requires { store.now.vars < 2 ^ 62 }
        ensures clauses { IfOk result (λ a. a.store ≡ record { vars = store.now.vars; clauses = []; trail = []; found = [] }) }
        ensures marks { IfOk result (λ a. a.marks.items ≡ []) }
    {
        let mut copy = Arena::new(alloc, store.vars())?;
        copy.take_work(store);
        Ok(Alive {
            store: copy,
            marks: Vec::new(alloc),
            numbers: Vec::new(alloc),
        })
    }

    /// Looks at the clause at a place of a store, which stays where it was added or the kernel has it.
    fn look_at(
        &mut self,
        store: &Arena,
        marks: &[bool],
        had: &[bool],
        place: usize,
    ) -> Result<(), OutOfMemory>
        requires within { place < length store.now.clauses }
        requires marked { length marks.now ≡ length store.now.clauses }
        requires in_range { All (All (IsUpTo self.old.store.vars)) store.now.clauses }
        requires so_far { IsAlive store.now.clauses marks.now place self.old.store.clauses self.old.marks.items }
        ensures so_far { OnOk result (IsAlive store.now.clauses marks.now (place + 1) self.new.store.clauses self.new.marks.items) }
        ensures vars { OnOk result (self.new.store.vars ≡ self.old.store.vars) }
        ensures trail { OnOk result (self.new.store.trail ≡ self.old.store.trail) }
    {
        if !stays(marks, had, place) {
            self.numbers.push(0)?;
            return Ok(());
        }
        // The number of clauses is one of 64 bits.
        let _count = store.count();
        self.store.push(store.lits(place as u64 + 1))?;
        self.marks.push(is_learned(marks, place))?;
        let number = u32::try_from(self.store.count()).or(Err(OutOfMemory))?;
        self.numbers.push(number)?;
        Ok(())
    }
}

/// Whether the clause at a place stays: it was added, or the kernel has it.
fn stays(marks: &[bool], had: &[bool], place: usize) -> bool
    ensures { result ≡ false → slice_index_or marks.now place true ≡ true }
{
    !is_learned(marks, place) || had.get(place).copied().unwrap_or(false)
}

/// The clauses that stay, where the kernel has those that are marked so.
fn copied(alloc: Global, store: &Arena, marks: &[bool], had: &[bool]) -> Result<Alive, OutOfMemory>
    requires small { store.now.vars < 2 ^ 62 }
    requires marked { length marks.now ≡ length store.now.clauses }
    requires in_range { All (All (IsUpTo store.now.vars)) store.now.clauses }
    ensures stay { IfOk result (λ a. IsAlive store.now.clauses marks.now (length store.now.clauses) a.store.clauses a.marks.items) }
    ensures vars { IfOk result (λ a. a.store.vars ≡ store.now.vars) }
    ensures trail { IfOk result (λ a. a.store.trail ≡ []) }
{
    let mut alive = Alive::new(alloc, store)?;
    let count = store.count() as usize;
    let mut place = 0;
    while place < count {
        alive.look_at(store, marks, had, place)?;
        place += 1;
    }
    Ok(alive)
}

/// For each of so many clauses whether the kernel has it; without a kernel all are wanted.
fn wanted(alloc: Global, kernel: &Option<Kernel>, count: u64) -> Result<Vec<bool>, OutOfMemory> {
    match kernel {
        Some(kernel) => kernel.numbers(count),
        None => Ok(vec![in alloc; true; count as usize]?),
    }
}

/// The clauses that stay, under new numbers, which the kernel takes.
pub(crate) fn still_alive(
    alloc: Global,
    kernel: &mut Option<Kernel>,
    store: &Arena,
    marks: &[bool],
) -> Result<Alive, OutOfMemory>
    requires small { store.now.vars < 2 ^ 62 }
    requires marked { length marks.now ≡ length store.now.clauses }
    requires in_range { All (All (IsUpTo store.now.vars)) store.now.clauses }
    ensures stay { IfOk result (λ a. IsAlive store.now.clauses marks.now (length store.now.clauses) a.store.clauses a.marks.items) }
    ensures vars { IfOk result (λ a. a.store.vars ≡ store.now.vars) }
    ensures trail { IfOk result (λ a. a.store.trail ≡ []) }
{
    let had = wanted(alloc, kernel, store.count())?;
    let alive = copied(alloc, store, marks, had.as_slice())?;
    if let Some(kernel) = kernel {
        kernel.renumber(alive.numbers.as_slice());
    }
    Ok(alive)
}
