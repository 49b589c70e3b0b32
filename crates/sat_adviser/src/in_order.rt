//! An adviser that makes variables false in the order of their numbers, seen as an endless round of answers.
ghost use Rattle.std.specs.Prelude.{◌≡◌, ◌-◌, ◌^◌, ◌<◌, [], length, min, IsOk};
ghost use Rattle.sat_adviser.specs.Round.{answer_of, negations, place_after};
ghost use Rattle.base_values.specs.Counts.{next_count};

use crate::adviser::Adviser;
use crate::round::place_after;
use base_values::OutOfMemory;
use sat_clauses::lit::Lit;
use std::marker::Model;

/// Answers the codes of the negated variables 1, 2 and so on, over and over.
#[derive(Drop)]
pub struct InOrder {
    vars: usize,
    place: usize,
    told: u64,
    asked: u64,
}

impl Model for InOrder {
    ghost use Rattle.sat_adviser.specs.Round.{Round};

    ghost Value = { Round };

    ghost use Rattle.std.specs.Prelude.{◌⊎◌, ◌≡◌, ◌<◌, ◌^◌};
    ghost use Rattle.sat_adviser.specs.Round.{negations};

    ghost view = { λ a. record { answers = negations a.vars; place = a.place; told = a.told; asked = a.asked } };

    ghost invariant = { λ a. (a.vars < 2 ^ 63) × ((a.place ≡ 0) ⊎ (a.place < a.vars)) };
}

impl InOrder {
    /// No variable yet.
    pub fn new() -> InOrder
        ensures { result ≡ record { answers = []; place = 0; told = 0; asked = 0 } }
    {
        InOrder {
            vars: 0,
            place: 0,
            told: 0,
            asked: 0,
        }
    }
}

impl Adviser for InOrder {
    ghost use Rattle.std.specs.Prelude.{Some, length};
    ghost use Rattle.sat_adviser.specs.Round.{answer_of};

    ghost told = { λ a. a.told };

    ghost asked = { λ a. a.asked };

    ghost room = { λ a. Some (length a.answers) };

    ghost answer = { λ a. Some (answer_of a) };

    // No literal has a variable of 2^63 or more.
    fn ready(&mut self, vars: u64) -> Result<(), OutOfMemory>
        ensures ok { IsOk result }
        ensures first { self.new
            ≡ record { answers = negations (min vars (2 ^ 63 - 1)); place = 0; told = self.old.told; asked = self.old.asked } }
        ensures room { vars < 2 ^ 62 → length self.new.answers ≡ vars }
    {
        self.vars = vars.min(9223372036854775807) as usize;
        self.place = 0;
        Ok(())
    }

    fn pick(&mut self) -> u64
        ensures answer { result ≡ answer_of self.old }
        ensures next { self.new
            ≡ record self.old { place = place_after self.old.place (length self.old.answers); asked = next_count self.old.asked } }
    {
        self.asked = self.asked.saturating_add(1);
        if self.vars == 0 {
            return 0;
        }
        let var = self.place as u64 + 1;
        self.place = place_after(self.place, self.vars);
        2 * var + 1
    }

    fn learned(&mut self, _lits: &[Lit])
        ensures { self.new ≡ record self.old { told = next_count self.old.told } }
    {
        self.told = self.told.saturating_add(1);
    }

    fn told(&self) -> u64
        ensures { result ≡ self.now.told }
    {
        self.told
    }

    fn asked(&self) -> u64
        ensures { result ≡ self.now.asked }
    {
        self.asked
    }
}
