//! An adviser that prefers what was learned lately. Contracts see its counts alone, so that nothing rests on what it answers.
ghost use Rattle.std.specs.Prelude.{◌≡◌};
ghost use Rattle.base_values.specs.Counts.{next_count};

use crate::adviser::Adviser;
use base_values::OutOfMemory;
use sat_clauses::lit::Lit;
use std::alloc::Global;
use std::marker::Model;

// How many literals are remembered at most.
const MOST: u64 = 256;

/// Prefers the variables of the clauses that were learned lately.
///
/// It remembers the codes of the last literals that it heard, in a ring that `ready` makes, and answers
/// them from the last one heard back to the oldest, over and over; each learned clause begins anew.
#[derive(Drop)]
pub struct Active {
    alloc: Global,
    // The ring of codes; a place that nothing was written to yet holds 0.
    codes: Vec<u64>,
    // The place of the ring that is written next.
    end: usize,
    // How many places before the end the last answer stands.
    back: usize,
    told: u64,
    asked: u64,
}

impl Model for Active {
    ghost use Rattle.sat_adviser.specs.Count.{Counts};

    ghost Value = { Counts };

    ghost view = { λ a. record { told = a.told; asked = a.asked } };
}

impl Active {
    /// Nothing heard, and no room.
    pub fn new(alloc: Global) -> Active
        ensures { result ≡ record { told = 0; asked = 0 } }
    {
        Active {
            alloc,
            codes: Vec::new(alloc),
            end: 0,
            back: 0,
            told: 0,
            asked: 0,
        }
    }

    // Writes a code over the oldest one.
    fn remember(&mut self, code: u64)
        ensures { self.new ≡ self.old }
    {
        if self.end >= self.codes.len() {
            self.end = 0;
        }
        if self.end < self.codes.len() {
            self.codes[self.end] = code;
            self.end += 1;
        }
    }
}

impl Adviser for Active {
    ghost told = { λ a. a.told };

    ghost asked = { λ a. a.asked };

    fn ready(&mut self, vars: u64) -> Result<(), OutOfMemory>
        ensures { self.new ≡ self.old }
    {
        let len = vars.min(MOST) as usize;
        if self.codes.len() < len {
            self.codes = vec![in self.alloc; 0; len]?;
            self.end = 0;
            self.back = 0;
        }
        Ok(())
    }

    fn pick(&mut self) -> u64
        ensures { self.new ≡ record self.old { asked = next_count self.old.asked } }
    {
        self.asked = self.asked.saturating_add(1);
        let len = self.codes.len();
        if len == 0 {
            return 0;
        }
        self.back = if self.back < len { self.back + 1 } else { 1 };
        let place = if self.back <= self.end {
            self.end - self.back
        } else {
            (self.end + len).saturating_sub(self.back)
        };
        if place < len { self.codes[place] } else { 0 }
    }

    fn learned(&mut self, lits: &[Lit])
        ensures { self.new ≡ record self.old { told = next_count self.old.told } }
    {
        for lit in lits {
            self.remember(lit.code());
        }
        self.back = 0;
        self.told = self.told.saturating_add(1);
    }

    fn told(&self) -> u64
        ensures { result ≡ self.now.told }
    {
        self.told
    }

    fn asked(&self) -> u64
        ensures { result ≡ self.now.asked }
    {
        self.asked
    }
}
