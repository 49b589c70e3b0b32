//! How often literals stand in clauses that block states, of late more than long ago. A literal that stands in few of them is the first
//! that is tried to be taken out of a new one: so clauses come to be about the same bits, and a clause for one state holds at more others.
//! Which literal is tried changes which of the right clauses is found; contracts see nothing of it.
use base_values::OutOfMemory;
use sat_clauses::lit::Lit;
use std::alloc::Global;

/// What a clause adds to the weight of each of its literals.
const ONE: u32 = 1024;

/// After how many clauses all weights are halved.
const SPAN: u32 = 64;

/// The weights of literals.
#[derive(Drop)]
pub struct Weights {
    /// By the literals' codes.
    weights: Vec<u32>,
    /// How many clauses came since the weights were halved.
    count: u32,
}

impl Weights {
    /// All weights are 0.
    pub fn new(alloc: Global) -> Weights {
        Weights {
            weights: Vec::new(alloc),
            count: 0,
        }
    }

    /// The weight of a literal.
    pub fn of(&self, lit: Lit) -> u32 {
        self.weights.get(lit.code() as usize).copied().unwrap_or(0)
    }

    /// Adds to the weights of a clause's literals.
    pub fn note(&mut self, lits: &[Lit]) -> Result<(), OutOfMemory> {
        self.count = self.count.saturating_add(1);
        if self.count >= SPAN {
            self.count = 0;
            for weight in &mut self.weights {
                *weight /= 2;
            }
        }
        for lit in lits {
            self.add(lit.code() as usize)?;
        }
        Ok(())
    }

    /// Adds to the weight of the literal of a code.
    fn add(&mut self, code: usize) -> Result<(), OutOfMemory> {
        if self.weights.len() <= code {
            self.weights
                .resize(code.checked_add(1).ok_or(OutOfMemory)?, 0)?;
        }
        if let Some(weight) = self.weights.get_mut(code) {
            *weight = weight.saturating_add(ONE);
        }
        Ok(())
    }

    /// The literal of the least weight among those whose variables are none of these, the first of them where several are.
    pub fn least(&self, lits: &[Lit], others: &[u64]) -> Option<Lit> {
        let mut least: Option<Lit> = None;
        for lit in lits {
            if others.contains(&lit.var()) {
                continue;
            }
            let is_less = match least {
                Some(other) => self.of(*lit) < self.of(other),
                None => true,
            };
            if is_less {
                least = Some(*lit);
            }
        }
        least
    }
}
