//! What the names of a model are in a circuit: the signals of its variables and definitions, and the numbers of its
//! symbols.
//!
//! [`Copied`] has the signals at one moment, [`NamedSignals`] those now and at the next one, and [`NamedSignals::signal`] is what
//! an expression asks. Under `next` [`NamedSignals::at_next`] puts the next moment in the place of now.
ghost use Rattle.std.specs.Prelude.{◌≡◌, ◌≤◌, IfOk, pos, slice_get};
ghost use Rattle.smv_language.specs.ModelTree.{leaf_of};
ghost use Rattle.smv_type_laws.specs.Models.{kind_of_leaf};
ghost use Rattle.smv_types.specs.Answers.{told_sort};
ghost use Rattle.sat_circuits.specs.Words.{fit};
ghost use Rattle.sat_circuits.specs.Numbers.{number_word};
ghost use Rattle.sat_encoding_laws.specs.Signals.{word};
ghost use Rattle.sat_encoding_laws.specs.Lists.{leaf_signal, signal_or_false};
ghost use Rattle.sat_expressions.specs.BuiltSignals.{signal_of, signals_of};
ghost use Rattle.sat_expressions.specs.ModelNames.{copy_of, model_of, IsNamed};

use crate::signal::Signal;
use base_values::{Items, OutOfMemory};
use sat_circuits::constants::number_at;
use sat_circuits::gates::Gates;
use smv_language::model::Flat;
use smv_types::{Sort, Typed};
use std::alloc::Global;

/// Signals, by numbers from 0.
pub type SignalList = Items<Signal>;

/// A model's variables and definitions at one moment.
#[derive(Drop)]
pub struct Copied {
    /// By the numbers of the variables.
    pub variables: SignalList,
    /// By the numbers of the definitions.
    pub definitions: SignalList,
}

/// The names of a model now and at the next moment, and the bits of its symbols.
#[derive(Clone, Copy)]
pub struct NamedSignals<'a> {
    /// The model, for what is known of the values.
    pub model: &'a Typed,
    /// The signals now.
    pub current: &'a Copied,
    /// The signals at the next moment.
    pub next: &'a Copied,
    /// The bits of the word of a symbol.
    pub symbols: u32,
}

impl<'a> NamedSignals<'a> {
    /// The names at one moment alone.
    pub fn at(model: &'a Typed, current: &'a Copied, symbols: u32) -> NamedSignals<'a>
        ensures { result ≡ record { model = model.entry; current = current.entry; next = current.entry; symbols = symbols } }
    {
        NamedSignals {
            model,
            current,
            next: current,
            symbols,
        }
    }

    /// Under `next` a name is what it is at the next moment.
    pub fn at_next(&self) -> NamedSignals<'a>
        ensures { result ≡ record { model = self.now.model; current = self.now.next; next = self.now.next; symbols = self.now.symbols } }
    {
        NamedSignals {
            model: self.model,
            current: self.next,
            next: self.next,
            symbols: self.symbols,
        }
    }

    /// The signal of a name now; a symbol is its number.
    pub fn signal(&self, alloc: Global, g: &Gates, name: Flat) -> Result<Signal, OutOfMemory>
        requires { IsNamed g.now self.now }
        ensures value { IfOk result (λ e. signal_of e
            ≡ leaf_signal (model_of self.now).symbols (copy_of self.now.current.now).variables (copy_of self.now.current.now).definitions
            (leaf_of name)) }
    {
        match name {
            Flat::Var(i) => signal_at(g, &self.current.variables, i),
            Flat::Symbol(i) => symbol_signal(alloc, g, i, self.symbols),
            Flat::Definition(i) => signal_at(g, &self.current.definitions, i),
        }
    }

    /// What is known of the values of a name.
    pub fn sort(&self, name: Flat) -> Sort
        ensures { result ≡ told_sort (kind_of_leaf (model_of self.now) (leaf_of name)) }
    {
        self.model.sort_of(name)
    }
}

/// The signal at a place, or FALSE where there is none.
fn signal_at(g: &Gates, signals: &SignalList, i: u32) -> Result<Signal, OutOfMemory>
    ensures { IfOk result (λ e. signal_of e ≡ signal_or_false (slice_get (signals_of signals.now) i)) }
{
    match signals.as_slice().get(i as usize) {
        Some(signal) => signal.copy(),
        None => Ok(Signal::Bit(g.constant(false))),
    }
}

/// The word of a symbol's number at that width.
fn symbol_signal(alloc: Global, g: &Gates, i: u32, width: u32) -> Result<Signal, OutOfMemory>
    requires { 1 ≤ width }
    ensures { IfOk result (λ e. signal_of e ≡ word (fit width (number_word (pos i)))) }
{
    let word = number_at(alloc, g, i as i64, width)?;
    Ok(Signal::Word(word))
}
