//! The adviser that prints news.
ghost use Rattle.std.specs.Prelude.{◌≡◌};

use base_values::OutOfMemory;
use sat_adviser::{Adviser, News};
use sat_clauses::lit::Lit;
use std::io;

/// An adviser that advises as another one, and prints the news of the search on standard error.
#[derive(Drop)]
pub struct Watched<A: Adviser, R: Eprint + Drop> {
    adviser: A,
    errors: R,
}

impl<A: Adviser, R: Eprint + Drop> Watched<A, R> {
    /// What advises, and where standard error is.
    pub fn new(adviser: A, errors: R) -> Watched<A, R>
        ensures { result.adviser ≡ adviser }
    {
        Watched { adviser, errors }
    }
}

impl<A: Adviser, R: Eprint + Drop> Adviser for Watched<A, R> {
    ghost told = { λ w. A.told w.adviser };

    ghost asked = { λ w. A.asked w.adviser };

    ghost room = { λ w. A.room w.adviser };

    ghost answer = { λ w. A.answer w.adviser };

    ghost heard = { λ w. A.heard w.adviser };

    fn ready(&mut self, vars: u64) -> Result<(), OutOfMemory> {
        self.adviser.ready(vars)
    }

    fn pick(&mut self) -> u64 {
        self.adviser.pick()
    }

    fn learned(&mut self, lits: &[Lit]) {
        self.adviser.learned(lits);
    }

    fn hears(&mut self, news: &News<'_>) {
        let _printed = print_news(&self.errors, news);
        self.adviser.hears(news);
    }

    fn told(&self) -> u64 {
        self.adviser.told()
    }

    fn asked(&self) -> u64 {
        self.adviser.asked()
    }
}

// Prints a line of news.
fn print_news<R: Eprint>(errors: &R, news: &News<'_>) -> io::Result<()> {
    match news {
        News::Frontier(steps) => eprintln!(errors; "frontier {steps}"),
        News::Set { faults, steps } => print_set(errors, faults, *steps),
        News::Invariant => eprintln!(errors; "invariant"),
        News::Goal { derived, count } => eprintln!(errors; "goal {derived} {count}"),
    }
}

// Prints the line of a set: the steps of its trace, and the numbers of its faults.
fn print_set<R: Eprint>(errors: &R, faults: &[u32], steps: usize) -> io::Result<()> {
    eprint!(errors; "set {steps}")?;
    for fault in faults {
        eprint!(errors; " {fault}")?;
    }
    eprintln!(errors)
}
