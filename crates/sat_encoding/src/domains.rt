//! The domains of a model's variables as gates: that each signal has one of its variable's values.
//!
//! `domains` is the main function. A boolean needs nothing; of a range both ends are compared; of a set of numbers
//! or symbols one has to be the value.
ghost use Rattle.std.specs.Prelude.{◌≡◌, ◌≤◌, ◌||◌, not, false, IfOk, OnOk, map, if◌then◌else◌};
ghost use Rattle.smv_language.specs.Trace.{Each};
ghost use Rattle.smv_language.specs.ModelTree.{model_tree, role_of};
ghost use Rattle.sat_encoding_laws.specs.Inputs.{is_input};
ghost use Rattle.sat_clauses.specs.Models.{IsBelow};
ghost use Rattle.sat_circuits.specs.Gates.{constant_lit, or_gate};
ghost use Rattle.sat_circuits.specs.Circuit.{after};
ghost use Rattle.sat_circuits.specs.Words.{IsWordOf};
ghost use Rattle.sat_circuits.specs.Numbers.{number_word};
ghost use Rattle.sat_encoding_laws.specs.Widths.{symbol_width};
ghost use Rattle.sat_encoding_laws.specs.Signals.{word, word_in, same_gates, between_gates};
ghost use Rattle.sat_encoding_laws.specs.Meanings.{IsSignal};
ghost use Rattle.sat_encoding_laws.specs.Encodable.{IsEncodable};
ghost use Rattle.sat_encoding_laws.specs.Lists.{Copy, names_of, domains_gates};
ghost use Rattle.sat_expressions.specs.BuiltSignals.{signal_of, signals_of, BuildsLiteral};
ghost use Rattle.sat_encoding.specs.Domains.{asserted_literal, some_gates, symbol_word, domain_gates};
ghost use Rattle.sat_encoding.specs.Copies.{Builds};

use base_values::{Domain, OutOfMemory};
use sat_circuits::constants::{number_at, number_word};
use sat_circuits::gates::Gates;
use sat_circuits::word::Word;
use sat_clauses::lit::Lit;
use sat_expressions::names::SignalList;
use sat_expressions::operator::either;
use sat_expressions::signal::{Signal, between, same};
use smv_language::model::Role;
use smv_types::Typed;
use std::alloc::Global;

/// The variables with these signals have values of their domains: all, or those that are no inputs.
pub(crate) fn domains(
    alloc: Global,
    g: &mut Gates,
    t: &Typed,
    signals: &SignalList,
    symbols: u32,
    all: bool,
) -> Result<(), OutOfMemory>
    requires encodable { IsEncodable (model_tree t.now.model) }
    requires symbols { symbols ≡ symbol_width (model_tree t.now.model).symbols }
    requires usable { Each (IsSignal g.old) (signals_of signals.now) }
    ensures { OnOk result ((now next : Copy) → Builds g.old (domains_gates (model_tree t.now.model)
        (names_of (model_tree t.now.model) now next) all (model_tree t.now.model).variables (signals_of signals.now) g.old) g.new) }
{
    let count = t.model().variables.len().min(signals.len());
    for i in 0..count {
        let asked = is_asked(all, t.model().variables.at(i).role);
        domain_if(alloc, g, t.domain(i), signals.at(i), symbols, asked)?;
    }
    Ok(())
}

/// All domains are asked for, or this is no input's.
fn is_asked(all: bool, role: Role) -> bool
    ensures { result ≡ (all || not (is_input (role_of role))) }
{
    all || !matches!(role, Role::Input)
}

/// A signal has a value of the domain, where that is asked.
fn domain_if(
    alloc: Global,
    g: &mut Gates,
    domain: &Domain,
    signal: &Signal,
    symbols: u32,
    asked: bool,
) -> Result<(), OutOfMemory>
    requires some { 1 ≤ symbols }
    requires usable { IsSignal g.old (signal_of signal.now) }
    ensures { OnOk result (Builds g.old (if asked then domain_gates symbols domain.now (signal_of signal.now) g.old else g.old) g.new) }
{
    if !asked {
        return Ok(());
    }
    match domain {
        Domain::Boolean => Ok(()),
        Domain::Range { lo, hi } => range(alloc, g, signal, *lo, *hi),
        Domain::Numbers(numbers) => some_number(alloc, g, signal, numbers.as_slice()),
        Domain::Symbols(listed) => some_symbol(alloc, g, signal, listed.as_slice(), symbols),
    }
}

/// A signal is a number from `lo` to `hi`.
fn range(alloc: Global, g: &mut Gates, signal: &Signal, lo: i64, hi: i64) -> Result<(), OutOfMemory>
    requires { IsSignal g.old (signal_of signal.now) }
    ensures { OnOk result (Builds g.old (asserted_literal (between_gates (word_in (signal_of signal.now)) lo hi g.old)) g.new) }
{
    let word = signal.to_word(alloc)?;
    let found = between(alloc, g, &word, lo, hi)?;
    g.assert_true(found)?;
    Ok(())
}

/// A signal is one of the numbers.
fn some_number(
    alloc: Global,
    g: &mut Gates,
    signal: &Signal,
    numbers: &[i64],
) -> Result<(), OutOfMemory>
    requires { IsSignal g.old (signal_of signal.now) }
    ensures { OnOk result
        (Builds g.old (asserted_literal (some_gates (signal_of signal.now) (map number_word numbers.now) (constant_lit false) g.old))
        g.new) }
{
    let mut found = g.constant(false);
    for n in numbers {
        let word = number_word(alloc, g, *n)?;
        found = or_same(alloc, g, found, signal, word)?;
    }
    g.assert_true(found)?;
    Ok(())
}

/// A signal is one of the symbols.
fn some_symbol(
    alloc: Global,
    g: &mut Gates,
    signal: &Signal,
    listed: &[u32],
    symbols: u32,
) -> Result<(), OutOfMemory>
    requires some { 1 ≤ symbols }
    requires usable { IsSignal g.old (signal_of signal.now) }
    ensures { OnOk result (Builds g.old (asserted_literal (some_gates (signal_of signal.now)
        (map (symbol_word symbols) listed.now) (constant_lit false) g.old)) g.new) }
{
    let mut found = g.constant(false);
    for symbol in listed {
        let word = number_at(alloc, g, *symbol as i64, symbols)?;
        found = or_same(alloc, g, found, signal, word)?;
    }
    g.assert_true(found)?;
    Ok(())
}

/// Whether the literal is TRUE, or a signal has the value of a word.
fn or_same(
    alloc: Global,
    g: &mut Gates,
    found: Lit,
    signal: &Signal,
    value: Word,
) -> Result<Lit, OutOfMemory>
    requires found { IsBelow g.old.free found }
    requires usable { IsSignal g.old (signal_of signal.now) }
    requires word { IsWordOf g.old value }
    ensures { IfOk result
        (BuildsLiteral g.old (after (same_gates (signal_of signal.now) (word value) g.old) (λ x t. or_gate found x t)) g.new) }
{
    let here = same(alloc, g, signal, &Signal::Word(value))?;
    let made = either(g, found, here)?;
    Ok(made)
}
