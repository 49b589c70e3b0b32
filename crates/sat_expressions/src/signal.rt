//! What an expression becomes in a circuit: the literal of a truth value, or the word of a number or a symbol.
//!
//! [`Signal`] is that. [`same`] compares two, [`choice`] is the one or the other by a condition, [`between`] tests
//! a word by the ends of an interval, and [`is_less`] compares words. Each sees first that the circuit has room for
//! its gates, and answers want of memory where it has not.
ghost use Rattle.std.specs.Prelude.{◌≡◌, ◌≤◌, ◌<◌, ◌-◌, ◌^◌, length, IfOk, OnOk};
ghost use Rattle.sat_clauses.specs.Models.{IsBelow};
ghost use Rattle.sat_circuits.specs.Words.{IsWordOf, fit};
ghost use Rattle.sat_circuits.specs.Gates.{xor_gate, mux_gate};
ghost use Rattle.sat_circuits.specs.Numbers.{number_word};
ghost use Rattle.sat_circuits.specs.Sums.{equal_gates, less_gates};
ghost use Rattle.sat_circuits.specs.Quotients.{choose_gates};
ghost use Rattle.sat_encoding_laws.specs.Signals.{literal_in, word_in, fitted, as_bit, as_word, turned, same_gates, choice_gates};
ghost use Rattle.sat_encoding_laws.specs.Signals.{between_gates};
ghost use Rattle.sat_encoding_laws.specs.Meanings.{IsSignal};
ghost use Rattle.sat_expressions.specs.BuiltSignals.{signal_of, IsSigned, BuildsLiteral, BuildsSignal};

use crate::room::{check_narrow, check_room, check_width};
use base_values::{Items, OutOfMemory};
use sat_circuits::compare::{equal, less};
use sat_circuits::constants::number_word;
use sat_circuits::gates::Gates;
use sat_circuits::quotients::choose;
use sat_circuits::word::{Word, fitted};
use sat_clauses::lit::Lit;
use std::alloc::Global;

/// A truth value is a literal, and a number or a symbol is a word.
#[derive(Drop)]
pub enum Signal {
    Bit(Lit),
    Word(Word),
}

impl Signal {
    /// The literal of a truth value; a word, which no typed expression has there, counts as FALSE.
    pub fn literal(&self, g: &Gates) -> Lit
        requires { IsSignal g.now (signal_of self.now) }
        ensures value { result ≡ literal_in (signal_of self.now) }
        ensures below { IsBelow g.now.free result }
    {
        match self {
            Signal::Bit(l) => *l,
            Signal::Word(_) => g.constant(false),
        }
    }

    /// The word of a number or a symbol.
    pub fn into_word(self, alloc: Global) -> Result<Word, OutOfMemory>
        ensures value { IfOk result (λ w. w ≡ word_in (signal_of self)) }
        ensures narrow { IfOk result (λ w. length w ≤ 34) }
    {
        match self {
            Signal::Bit(l) => { Items::from_slice(alloc, &[l]) }
            Signal::Word(w) => {
                check_narrow(&w)?;
                Ok(w)
            }
        }
    }

    /// The word of a number or a symbol, as one of its own.
    pub fn to_word(&self, alloc: Global) -> Result<Word, OutOfMemory>
        ensures value { IfOk result (λ w. w ≡ word_in (signal_of self.now)) }
        ensures narrow { IfOk result (λ w. length w ≤ 34) }
    {
        match self {
            Signal::Bit(l) => { Items::from_slice(alloc, &[*l]) }
            Signal::Word(w) => {
                check_narrow(w)?;
                Items::from_slice(alloc, w.as_slice())
            }
        }
    }

    /// A signal of its own with the same literals.
    pub fn copy(&self) -> Result<Signal, OutOfMemory>
        ensures { IfOk result (λ e. signal_of e ≡ signal_of self.now) }
    {
        match self {
            Signal::Bit(l) => Ok(Signal::Bit(*l)),
            Signal::Word(w) => {
                let word = w.copy()?;
                Ok(Signal::Word(word))
            }
        }
    }

    /// The signal with a word of that width.
    pub fn fitted(self, alloc: Global, g: &Gates, width: u32) -> Result<Signal, OutOfMemory>
        requires some { 1 ≤ width }
        requires usable { IsSignal g.now (signal_of self) }
        ensures { IfOk result (BuildsSignal g.now (g.now, fitted width (signal_of self)) g.now) }
    {
        // The variable of the constants is below the next free one.
        let _ = g.constant(false);
        match self {
            Signal::Bit(l) => Ok(Signal::Bit(l)),
            Signal::Word(w) => {
                let word = fitted(alloc, &w, width)?;
                Ok(Signal::Word(word))
            }
        }
    }
}

/// Whether two signals have the same value.
pub fn same(alloc: Global, g: &mut Gates, a: &Signal, b: &Signal) -> Result<Lit, OutOfMemory>
    requires left { IsSignal g.old (signal_of a.now) }
    requires right { IsSignal g.old (signal_of b.now) }
    ensures { IfOk result (BuildsLiteral g.old (same_gates (signal_of a.now) (signal_of b.now) g.old) g.new) }
{
    match a {
        Signal::Bit(x) => match b {
            Signal::Bit(y) => same_bits(g, *x, *y),
            Signal::Word(_) => same_words(alloc, g, a, b),
        },
        Signal::Word(_) => same_words(alloc, g, a, b),
    }
}

/// Whether two truth values are the same.
fn same_bits(g: &mut Gates, a: Lit, b: Lit) -> Result<Lit, OutOfMemory>
    requires left { IsBelow g.old.free a }
    requires right { IsBelow g.old.free b }
    ensures { IfOk result (BuildsLiteral g.old (turned (xor_gate a b g.old)) g.new) }
{
    check_room(g)?;
    let differ = g.xor(a, b)?;
    Ok(differ.neg())
}

/// Whether the words of two signals are the same number.
fn same_words(alloc: Global, g: &mut Gates, a: &Signal, b: &Signal) -> Result<Lit, OutOfMemory>
    requires left { IsSignal g.old (signal_of a.now) }
    requires right { IsSignal g.old (signal_of b.now) }
    ensures { IfOk result (BuildsLiteral g.old (equal_gates (word_in (signal_of a.now)) (word_in (signal_of b.now)) g.old) g.new) }
{
    check_room(g)?;
    let a = a.to_word(alloc)?;
    let b = b.to_word(alloc)?;
    equal(alloc, g, &a, &b)
}

/// The first signal where the condition is true, else the second; words at that width.
pub fn choice(
    alloc: Global,
    g: &mut Gates,
    width: u32,
    c: Lit,
    a: Signal,
    b: Signal,
) -> Result<Signal, OutOfMemory>
    requires some { 1 ≤ width }
    requires condition { IsBelow g.old.free c }
    requires left { IsSignal g.old (signal_of a) }
    requires right { IsSignal g.old (signal_of b) }
    ensures { IfOk result (BuildsSignal g.old (choice_gates width c (signal_of a) (signal_of b) g.old) g.new) }
{
    match a {
        Signal::Bit(x) => match b {
            Signal::Bit(y) => chosen_bit(g, c, x, y),
            Signal::Word(w) => chosen_word(alloc, g, width, c, Signal::Bit(x), Signal::Word(w)),
        },
        Signal::Word(w) => chosen_word(alloc, g, width, c, Signal::Word(w), b),
    }
}

/// The first truth value where the condition is true, else the second.
fn chosen_bit(g: &mut Gates, c: Lit, a: Lit, b: Lit) -> Result<Signal, OutOfMemory>
    requires condition { IsBelow g.old.free c }
    requires left { IsBelow g.old.free a }
    requires right { IsBelow g.old.free b }
    ensures { IfOk result (BuildsSignal g.old (as_bit (mux_gate c a b g.old)) g.new) }
{
    check_room(g)?;
    let chosen = g.mux(c, a, b)?;
    Ok(Signal::Bit(chosen))
}

/// The word of the first signal where the condition is true, else that of the second, at that width.
fn chosen_word(
    alloc: Global,
    g: &mut Gates,
    width: u32,
    c: Lit,
    a: Signal,
    b: Signal,
) -> Result<Signal, OutOfMemory>
    requires some { 1 ≤ width }
    requires condition { IsBelow g.old.free c }
    requires left { IsSignal g.old (signal_of a) }
    requires right { IsSignal g.old (signal_of b) }
    ensures { IfOk result
        (BuildsSignal g.old (as_word (choose_gates c (fit width (word_in (signal_of a))) (fit width (word_in (signal_of b))) g.old))
        g.new) }
{
    check_room(g)?;
    check_width(width)?;
    let a = word_at(alloc, a, width)?;
    let b = word_at(alloc, b, width)?;
    let chosen = choose(alloc, g, c, &a, &b)?;
    Ok(Signal::Word(chosen))
}

/// The word of a signal at that width.
fn word_at(alloc: Global, e: Signal, width: u32) -> Result<Word, OutOfMemory>
    requires { IsSigned (signal_of e) }
    ensures { IfOk result (λ w. w ≡ fit width (word_in (signal_of e))) }
{
    let word = e.into_word(alloc)?;
    fitted(alloc, &word, width)
}

/// Whether the word is a number from `lo` to `hi`: not less than the first, and the last not less than it.
pub fn between(alloc: Global, g: &mut Gates, w: &Word, lo: i64, hi: i64) -> Result<Lit, OutOfMemory>
    requires { IsWordOf g.old w.now }
    ensures { IfOk result (BuildsLiteral g.old (between_gates w.now lo hi g.old) g.new) }
{
    let under = is_under(alloc, g, w, lo)?;
    let over = is_over(alloc, g, w, hi)?;
    check_room(g)?;
    let l = g.and(under.neg(), over.neg())?;
    Ok(l)
}

/// Whether the word is less than a number.
fn is_under(alloc: Global, g: &mut Gates, w: &Word, lo: i64) -> Result<Lit, OutOfMemory>
    requires { IsWordOf g.old w.now }
    ensures { IfOk result (BuildsLiteral g.old (less_gates w.now (number_word lo) g.old) g.new) }
{
    let least = number_word(alloc, g, lo)?;
    is_less(alloc, g, w, &least)
}

/// Whether a number is less than the word.
fn is_over(alloc: Global, g: &mut Gates, w: &Word, hi: i64) -> Result<Lit, OutOfMemory>
    requires { IsWordOf g.old w.now }
    ensures { IfOk result (BuildsLiteral g.old (less_gates (number_word hi) w.now g.old) g.new) }
{
    let greatest = number_word(alloc, g, hi)?;
    is_less(alloc, g, &greatest, w)
}

/// Whether the first word is less than the second.
pub fn is_less(alloc: Global, g: &mut Gates, a: &Word, b: &Word) -> Result<Lit, OutOfMemory>
    requires left { IsWordOf g.old a.now }
    requires right { IsWordOf g.old b.now }
    ensures { IfOk result (BuildsLiteral g.old (less_gates a.now b.now g.old) g.new) }
{
    check_room(g)?;
    check_narrow(a)?;
    check_narrow(b)?;
    less(alloc, g, a, b)
}
