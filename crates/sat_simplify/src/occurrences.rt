//! Occurrence lists: for each literal the numbers of the clauses that were noted at it.
//!
//! Numbers are noted and never taken back, so a list may name clauses that are gone or that have lost the literal.
ghost use Rattle.std.specs.Prelude.{◌≡◌, ◌<◌, ◌++◌, ◌∷◌, [], OnOk, length, slice_set};
ghost use Rattle.sat_clauses.specs.Code.{code_of};
ghost use Rattle.sat_simplify.specs.OccurrenceLists.{noted_at, KeepsNotes, IsNotedAt, HasNoted};

use base_values::OutOfMemory;
use sat_clauses::lit::Lit;
use std::alloc::Global;
use std::marker::Model;

/// A list of numbers.
#[derive(Drop)]
pub struct Numbers {
    numbers: Vec<u32>,
}

impl Model for Numbers {
    ghost use Rattle.std.specs.Prelude.{List, ℕ};

    ghost Value = { List ℕ };

    ghost view = { λ l. l.numbers.items };
}

impl Numbers {
    // The empty list.
    fn new(alloc: Global) -> Numbers
        ensures { result ≡ [] }
    {
        Numbers {
            numbers: Vec::new(alloc),
        }
    }

    // Appends a number.
    fn push(&mut self, number: u32) -> Result<(), OutOfMemory>
        ensures ok { OnOk result (self.new ≡ self.old ++ number ∷ []) }
    {
        self.numbers.push(number)?;
        Ok(())
    }

    // The numbers as a slice.
    fn as_slice(&self) -> &[u32]
        ensures { result.now ≡ self.now }
    {
        self.numbers.as_slice()
    }
}

/// For each literal, by its code, the numbers that were noted at it.
#[derive(Drop)]
pub struct Occurrences {
    alloc: Global,
    lists: Vec<Numbers>,
}

impl Model for Occurrences {
    ghost use Rattle.std.specs.Prelude.{List, ℕ};

    ghost Value = { List (List ℕ) };

    ghost view = { λ o. o.lists.items };
}

impl Occurrences {
    /// Nothing noted.
    pub fn new(alloc: Global) -> Occurrences
        ensures { result ≡ [] }
    {
        Occurrences {
            alloc,
            lists: Vec::new(alloc),
        }
    }

    /// For how many codes there is a list.
    pub fn len(&self) -> u64
        ensures { result ≡ length self.now }
    {
        self.lists.len() as u64
    }

    /// The numbers that were noted at a literal.
    pub fn at(&self, lit: Lit) -> &[u32]
        ensures { result.now ≡ noted_at self.now (code_of lit) }
    {
        match self.lists.get(lit.code() as usize) {
            Some(numbers) => numbers.as_slice(),
            None => &[],
        }
    }

    #[tactic(auto, using(crate::proofs::OccurringLaws::growing_rules))]
    // Makes a list for each code up to this one.
    fn make_room(&mut self, code: usize) -> Result<(), OutOfMemory>
        ensures room { OnOk result (code < length self.new) }
        ensures keeps { OnOk result (KeepsNotes self.old self.new) }
    {
        while self.lists.len() <= code {
            self.lists.push(Numbers::new(self.alloc))?;
        }
        Ok(())
    }

    // Notes a number at a code that has a list.
    fn push(&mut self, code: usize, number: u32) -> Result<(), OutOfMemory>
        requires { code < length self.old }
        ensures { OnOk result (self.new ≡ slice_set self.old code (noted_at self.old code ++ number ∷ [])) }
    {
        self.lists[code].push(number)
    }

    #[tactic(auto, using(crate::proofs::OccurringLaws::noting_rules))]
    /// Notes a number at a literal.
    pub fn note(&mut self, lit: Lit, number: u32) -> Result<(), OutOfMemory>
        ensures has { OnOk result (IsNotedAt self.new number lit) }
        ensures keeps { OnOk result (KeepsNotes self.old self.new) }
    {
        let code = lit.code() as usize;
        self.make_room(code)?;
        self.push(code, number)
    }

    #[tactic(auto, using(crate::proofs::OccurringLaws::noted_steps))]
    /// Notes a number at each literal of a clause.
    pub fn note_clause(&mut self, lits: &[Lit], number: u32) -> Result<(), OutOfMemory>
        ensures { OnOk result (HasNoted self.old self.new lits.now number) }
    {
        for lit in lits {
            self.note(*lit, number)?;
        }
        Ok(())
    }
}
