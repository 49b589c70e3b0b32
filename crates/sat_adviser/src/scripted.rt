//! An adviser that answers what it was given, seen as an endless round of answers.
ghost use Rattle.std.specs.Prelude.{◌≡◌, IsOk, length};
ghost use Rattle.sat_adviser.specs.Round.{answer_of, place_after};
ghost use Rattle.base_values.specs.Counts.{next_count};

use crate::adviser::Adviser;
use crate::round::place_after;
use base_values::{Items, OutOfMemory};
use sat_clauses::lit::Lit;
use std::marker::Model;

/// A list of codes, or of any numbers.
pub type CodeList = Items<u64>;

/// Answers a given list over and over, and 0 where it is empty.
#[derive(Drop)]
pub struct Scripted {
    answers: CodeList,
    place: usize,
    told: u64,
    asked: u64,
}

impl Model for Scripted {
    ghost use Rattle.sat_adviser.specs.Round.{Round};

    ghost Value = { Round };

    ghost use Rattle.std.specs.Prelude.{◌⊎◌, ◌≡◌, ◌<◌, length};

    ghost view = { λ s. record { answers = s.answers; place = s.place; told = s.told; asked = s.asked } };

    ghost invariant = { λ s. (s.place ≡ 0) ⊎ (s.place < length s.answers) };
}

impl Scripted {
    /// Begins with the first answer of the list.
    pub fn new(answers: CodeList) -> Scripted
        ensures { result ≡ record { answers = answers; place = 0; told = 0; asked = 0 } }
    {
        Scripted {
            answers,
            place: 0,
            told: 0,
            asked: 0,
        }
    }
}

impl Adviser for Scripted {
    ghost use Rattle.std.specs.Prelude.{Some};
    ghost use Rattle.sat_adviser.specs.Round.{answer_of};

    ghost told = { λ s. s.told };

    ghost asked = { λ s. s.asked };

    ghost answer = { λ s. Some (answer_of s) };

    fn ready(&mut self, _vars: u64) -> Result<(), OutOfMemory>
        ensures ok { IsOk result }
        ensures same { self.new ≡ self.old }
    {
        Ok(())
    }

    fn pick(&mut self) -> u64
        ensures answer { result ≡ answer_of self.old }
        ensures next { self.new
            ≡ record self.old { place = place_after self.old.place (length self.old.answers); asked = next_count self.old.asked } }
    {
        self.asked = self.asked.saturating_add(1);
        if self.answers.is_empty() {
            return 0;
        }
        let answer = *self.answers.at(self.place);
        self.place = place_after(self.place, self.answers.len());
        answer
    }

    fn learned(&mut self, _lits: &[Lit])
        ensures { self.new ≡ record self.old { told = next_count self.old.told } }
    {
        self.told = self.told.saturating_add(1);
    }

    fn told(&self) -> u64
        ensures { result ≡ self.now.told }
    {
        self.told
    }

    fn asked(&self) -> u64
        ensures { result ≡ self.now.asked }
    {
        self.asked
    }
}
