//! States that are known to be reached, and by how many steps: those of the paths that were found. A clause that such a state breaks can't
//! be put into the frames up to its number of steps or a higher one, so no question about it has to be asked. Which states are known
//! changes which of the right clauses are found; contracts see nothing of it.
ghost use Rattle.cut_frames.specs.Condition.{IsFit};

use crate::bits::{State, read};
use crate::steps::StepList;
use base_values::OutOfMemory;
use sat_clauses::System;
use sat_clauses::clause::Clause;
use sat_clauses::lit::Lit;
use std::alloc::Global;

/// How many states are kept.
const MOST: usize = 2048;

/// A state, and the number of steps that reach it from a first state.
#[derive(Drop)]
struct ReachedState {
    steps: usize,
    state: State,
}

/// The states that are known to be reached.
#[derive(Drop)]
pub struct Reached {
    states: Vec<ReachedState>,
    /// The place of the oldest one, where there are as many as are kept.
    oldest: usize,
}

/// Whether a state makes a literal of a state bit false.
pub fn breaks(state: &State, lit: Lit) -> bool {
    let var = lit.var();
    if var < 2 {
        return false;
    }
    match state.as_slice().get((var - 2) as usize) {
        Some(value) => *value == lit.is_negated(),
        None => false,
    }
}

/// Whether a state makes every literal of a clause false.
pub fn is_outside(state: &State, clause: &Clause) -> bool {
    clause.lits().iter().all(|lit| breaks(state, *lit))
}

impl Reached {
    /// No state.
    pub fn new(alloc: Global) -> Reached {
        Reached {
            states: Vec::new(alloc),
            oldest: 0,
        }
    }

    /// Keeps a state, in the place of the oldest one where there are many.
    fn put(&mut self, steps: usize, state: State) -> Result<(), OutOfMemory> {
        let new = ReachedState { steps, state };
        if self.states.len() < MOST {
            self.states.push(new)?;
            return Ok(());
        }
        if let Some(old) = self.states.get_mut(self.oldest) {
            *old = new;
        }
        self.oldest = self.oldest.saturating_add(1) % MOST;
        Ok(())
    }

    /// Keeps the states of a path, each of which as many steps reach as come before it.
    pub fn note(&mut self, system: &System, path: &StepList) -> Result<(), OutOfMemory>
        requires { IsFit system.now }
    {
        let alloc = *self.states.allocator();
        for i in 0..path.len() {
            let state = read(alloc, 2, u64::from(system.state_bits), path.at(i))?;
            self.put(i, state)?;
        }
        Ok(())
    }

    /// Whether a state that at most so many steps reach makes every literal of a clause false.
    pub fn has_outside(&self, steps: usize, clause: &Clause) -> bool {
        self.states.iter().any(|known| known.steps <= steps && is_outside(&known.state, clause))
    }
}
