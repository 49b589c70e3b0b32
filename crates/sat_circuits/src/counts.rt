//! Whether at most so many of some literals are true: a sequential counter.
//!
//! [`at_most`] is the main function. With counters for 'more than n', 'at least n' and so on down to 'at least 0',
//! it takes two gates for each counter and literal.
ghost use Rattle.std.specs.Prelude.{◌≡◌, ◌+◌, ◌*◌, ◌^◌, ◌<◌, ◌≤◌, IfOk, OnOk, OnErr, length, nat_le};
ghost use Rattle.sat_clauses.specs.Models.{IsBelow};
ghost use Rattle.sat_circuits.specs.Meaning.{AllBelow, GivesBool, StopsWithin};
ghost use Rattle.sat_circuits.specs.Counts.{count_gate, count_step, at_most_gates, true_count};

use crate::gates::Gates;
use crate::word::{Word, falses, sign};
use base_values::{Items, OutOfMemory};
use sat_clauses::lit::Lit;
use std::alloc::Global;

/// One counter: `more` said that so many literals were true, and `fewer` one less; `l` is one more
/// literal.
fn count(g: &mut Gates, more: Lit, fewer: Lit, l: Lit) -> Result<Lit, OutOfMemory>
    requires more { IsBelow g.old.free more }
    requires fewer { IsBelow g.old.free fewer }
    requires literal { IsBelow g.old.free l }
    requires room { g.old.free + 2 < 2 ^ 31 }
    ensures exact { IfOk result (λ c. count_gate l (more, fewer) g.old ≡ (g.new, c)) }
    ensures err { OnErr result (StopsWithin g.old g.new (count_gate l (more, fewer) g.old).0) }
{
    let passed = g.and(fewer, l)?;
    let counter = g.or(more, passed)?;
    Ok(counter)
}

/// The counters with one literal more.
fn counted(alloc: Global, g: &mut Gates, counters: &Word, l: Lit) -> Result<Word, OutOfMemory>
    requires some { 0 < length counters.now }
    requires left { AllBelow g.old.free counters.now }
    requires right { IsBelow g.old.free l }
    requires room { g.old.free + 2 * length counters.now < 2 ^ 31 }
    ensures exact { IfOk result (λ w. count_step l counters.now g.old ≡ (g.new, w)) }
    ensures err { OnErr result (StopsWithin g.old g.new (count_step l counters.now g.old).0) }
{
    let mut next = Items::new(alloc);
    for i in 0..counters.len() - 1 {
        let counter = count(g, *counters.at(i), *counters.at(i + 1), l)?;
        next.push(counter)?;
    }
    next.push(sign(counters))?;
    Ok(next)
}

/// Whether at most `n` of the literals are true. The counters say that more than `n`, at least `n`,
/// and so on down to at least 0 of the literals so far are true.
pub fn at_most(alloc: Global, g: &mut Gates, lits: &[Lit], n: u32) -> Result<Lit, OutOfMemory>
    requires below { AllBelow g.old.free lits.now }
    requires room { g.old.free + 4 * (n + 1) * (length lits.now + 1) ≤ 2 ^ 31 }
    ensures exact { IfOk result (λ l. at_most_gates lits.now n g.old ≡ (g.new, l)) }
    ensures value { IfOk result (λ l. GivesBool g.old g.new l (λ v. nat_le (true_count v lits.now) n)) }
    ensures next { OnOk result (g.new.free ≡ g.old.free + 2 * (n + 1) * length lits.now) }
    ensures err { OnErr result (StopsWithin g.old g.new (at_most_gates lits.now n g.old).0) }
{
    let truth = g.constant(true);
    let mut counters = falses(alloc, g, n as usize + 1)?;
    counters.push(truth)?;
    for l in lits {
        counters = counted(alloc, g, &counters, *l)?;
    }
    Ok(counters.at(0).neg())
}
