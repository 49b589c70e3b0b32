//! What an adviser is: code of a caller's own, which suggests free choices to the search and hears what it learns.
//!
//! Contracts see of an adviser how often it was told and asked, and where it tells that also for how many variables it has
//! room, what it answers next, and which clause it heard last. What it answers is any number. It also hears the news of a
//! search, which it may show to someone, and which change nothing.
ghost use Rattle.std.specs.Prelude.{◌≡◌, ◌<◌, ◌^◌, OnOk, OnErr, IfSome};
ghost use Rattle.std.specs.Option.{option_map};
ghost use Rattle.base_values.specs.Counts.{next_count};

use crate::news::News;
use base_values::OutOfMemory;
use sat_clauses::lit::Lit;

/// What suggests free choices. Any answers are lawful, and every call but `ready` succeeds.
pub trait Adviser: Drop {
    ghost use Rattle.std.specs.Prelude.{ℕ, List, Option, None};
    ghost use Rattle.sat_clauses.specs.Literal.{Literal};

    /// How many learned clauses the adviser was told; the count stays at the greatest number of 64 bits.
    ghost told: { Self → ℕ };

    /// How often it was asked for a pick; the count stays at the greatest number of 64 bits.
    ghost asked: { Self → ℕ };

    /// The number of variables that it was last made ready for, or `None` where it does not tell.
    ghost room: { Self → Option ℕ } = { λ _. None };

    /// What it answers when it is asked next, or `None` where it does not tell.
    ghost answer: { Self → Option ℕ } = { λ _. None };

    /// The learned clause that it heard last, or `None` where it does not tell.
    ghost heard: { Self → Option (List Literal) } = { λ _. None };

    /// Makes room for a problem with the variables from 1 to `vars`. After want of memory it has room for
    /// as many as before.
    fn ready(&mut self, vars: u64) -> Result<(), OutOfMemory>
        requires { vars < 2 ^ 62 }
        ensures told { told self.new ≡ told self.old }
        ensures asked { asked self.new ≡ asked self.old }
        ensures room { OnOk result (room self.new ≡ option_map (λ _. vars) (room self.old)) }
        ensures room_stays { OnErr result (room self.new ≡ room self.old) };

    /// The code of a literal to make true, `2v` for the variable `v` and `2v + 1` for its negation, or
    /// any other number.
    fn pick(&mut self) -> u64
        ensures answer { IfSome (answer self.old) (λ n. result ≡ n) }
        ensures told { told self.new ≡ told self.old }
        ensures asked { asked self.new ≡ next_count (asked self.old) }
        ensures room { room self.new ≡ room self.old };

    /// Hears the literals of a clause that the search learned.
    fn learned(&mut self, lits: &[Lit])
        ensures heard { heard self.new ≡ option_map (λ _. lits.now) (heard self.old) }
        ensures told { told self.new ≡ next_count (told self.old) }
        ensures asked { asked self.new ≡ asked self.old }
        ensures room { room self.new ≡ room self.old };

    /// Hears what the search has come to. An adviser that does not say otherwise does nothing with it.
    fn hears(&mut self, _news: &News<'_>)
        ensures told { told self.new ≡ told self.old }
        ensures asked { asked self.new ≡ asked self.old }
        ensures room { room self.new ≡ room self.old }
    {}

    /// How many learned clauses it was told.
    fn told(&self) -> u64
        ensures { result ≡ told self.now };

    /// How often it was asked for a pick.
    fn asked(&self) -> u64
        ensures { result ≡ asked self.now };
}
