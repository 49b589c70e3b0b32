//! Which variables of the clause lists are the bits of a model's variables.
ghost use Rattle.std.specs.Prelude.{◌≡◌, ◌≤◌, ◌<◌, ◌+◌, ◌^◌, pos, None, Some, map, IfOk, IsOk, OnOk};
ghost use Rattle.smv_types.specs.Types.{spread};
ghost use Rattle.smv_language.specs.ModelTree.{model_tree, role_of};
ghost use Rattle.sat_encoding_laws.specs.Widths.{symbol_width};
ghost use Rattle.sat_encoding_laws.specs.Encodable.{IsEncodable};
ghost use Rattle.sat_encoding_laws.specs.Layout.{literals_from, with_sign, number_signal, place_of, width_as_input, variable_signals};
ghost use Rattle.sat_encoding_laws.specs.Layout.{input_bits, input_place, next_place};
ghost use Rattle.sat_expressions.specs.BuiltSignals.{signal_of, signals_of};
ghost use Rattle.sat_encoding.specs.Domains.{domain_interval, domain_width, value_width, domain_signal, places_after, capped};

use base_values::{Domain, Items, OutOfMemory};
use sat_circuits::word::{Word, fitted};
use sat_clauses::lit::Lit;
use sat_expressions::names::SignalList;
use sat_expressions::signal::Signal;
use sat_expressions::width::word_width;
use smv_language::model::Role;
use smv_types::{Ends, Typed, ends_width, widened, width};
use std::alloc::Global;

/// The lists have no variable with this number or a greater one.
pub(crate) const END_OF_VARIABLES: u64 = 2_147_483_648;

/// The least and the greatest number of a domain, where symbols are their numbers. Truth values have none.
pub(crate) fn ends_of(domain: &Domain) -> Option<Ends>
    ensures { result ≡ domain_interval domain.now }
{
    match domain {
        Domain::Boolean => None,
        Domain::Range { lo, hi } => Some(Ends { lo: *lo, hi: *hi }),
        Domain::Numbers(numbers) => number_ends(numbers.as_slice()),
        Domain::Symbols(symbols) => symbol_ends(symbols.as_slice()),
    }
}

// The ends of some numbers, if there are any.
fn number_ends(numbers: &[i64]) -> Option<Ends>
    ensures { result ≡ spread None numbers.now }
{
    let mut ends = None;
    for n in numbers {
        ends = Some(widened(ends, *n));
    }
    ends
}

// The ends of the numbers of some symbols, if there are any.
fn symbol_ends(symbols: &[u32]) -> Option<Ends>
    ensures { result ≡ spread None (map pos symbols.now) }
{
    let mut ends = None;
    for symbol in symbols {
        ends = Some(widened(ends, *symbol as i64));
    }
    ends
}

/// The bits of a variable with this domain.
pub(crate) fn domain_width(domain: &Domain) -> u32
    ensures { result ≡ domain_width domain.now }
{
    match domain {
        Domain::Boolean => 1,
        _ => ends_width(ends_of(domain)),
    }
}

/// Where the bits of variables are: the next state bit, and the next input bit.
#[derive(Clone, Copy)]
pub(crate) struct Places {
    /// The variable of the next state bit.
    pub state: u64,
    /// The variable of the next input bit.
    pub input: u64,
}

impl Places {
    /// Where the bits of a variable of this role begin.
    pub(crate) fn of(self, role: Role) -> u64
        ensures { result ≡ place_of (role_of role) self.state self.input }
    {
        match role {
            Role::State | Role::Frozen => self.state,
            Role::Input => self.input,
        }
    }

    /// The places after a variable of so many bits.
    pub(crate) fn after(self, role: Role, bits: u32) -> Places
        requires state { self.state ≤ 2 ^ 62 }
        requires input { self.input ≤ 2 ^ 62 }
        ensures { result ≡ places_after self (role_of role) bits }
    {
        match role {
            Role::State | Role::Frozen => Places {
                state: self.state + bits as u64,
                input: self.input,
            },
            Role::Input => Places {
                state: self.state,
                input: self.input + bits as u64,
            },
        }
    }

    /// The same, where all places past those of any variable are one.
    pub(crate) fn capped(self) -> Places
        ensures { result ≡ record { state = capped self.state; input = capped self.input } }
    {
        Places {
            state: self.state.min(4611686018427387904),
            input: self.input.min(4611686018427387904),
        }
    }

    /// The places are those of variables that there may be.
    fn check(self) -> Result<(), OutOfMemory>
        ensures state { OnOk result (self.state < 2 ^ 32) }
        ensures input { OnOk result (self.input < 2 ^ 32) }
        ensures fits { self.state < 2 ^ 32 → self.input < 2 ^ 32 → IsOk result }
    {
        if self.state < 4294967296 && self.input < 4294967296 {
            Ok(())
        } else {
            Err(OutOfMemory)
        }
    }
}

/// The bits of a model's inputs. More than 2^31 are too many for any list.
pub(crate) fn input_bits(t: &Typed) -> Result<u32, OutOfMemory>
    requires { IsEncodable (model_tree t.now.model) }
    ensures bits { IfOk result (λ n. n ≡ input_bits (model_tree t.now.model)) }
    ensures few { IfOk result (λ n. n ≤ 2 ^ 31) }
    ensures fits { input_bits (model_tree t.now.model) ≤ 2 ^ 31 → IsOk result }
{
    let mut bits: u64 = 0;
    for i in 0..t.model().variables.len() {
        let variable = t.model().variables.at(i);
        bits += width_as_input(variable.role, domain_width(t.domain(i)));
        if bits > END_OF_VARIABLES {
            return Err(OutOfMemory);
        }
    }
    Ok(bits as u32)
}

/// The bits of a variable of this role among those of the inputs.
fn width_as_input(role: Role, bits: u32) -> u64
    ensures value { result ≡ width_as_input (role_of role) bits }
    ensures few { result ≤ bits }
{
    match role {
        Role::State | Role::Frozen => 0,
        Role::Input => bits as u64,
    }
}

/// The places of the state now and of the inputs.
pub(crate) fn places_now(t: &Typed) -> Places
    ensures state { result.state ≡ 2 }
    ensures input { result.input ≡ input_place (model_tree t.now.model) }
{
    Places {
        state: 2,
        input: 2 * t.bits() as u64 + 2,
    }
}

/// The places of the next state and of the inputs.
pub(crate) fn places_next(t: &Typed) -> Places
    ensures state { result.state ≡ next_place (model_tree t.now.model) }
    ensures input { result.input ≡ input_place (model_tree t.now.model) }
{
    let bits = t.bits() as u64;
    Places {
        state: bits + 2,
        input: 2 * bits + 2,
    }
}

/// The signals of a model's variables in flat order, whose bits begin at these places.
pub(crate) fn variable_signals(
    alloc: Global,
    t: &Typed,
    first: Places,
    symbols: u32,
) -> Result<SignalList, OutOfMemory>
    requires encodable { IsEncodable (model_tree t.now.model) }
    requires symbols { symbols ≡ symbol_width (model_tree t.now.model).symbols }
    requires state { 1 ≤ first.state }
    requires input { 1 ≤ first.input }
    ensures { IfOk result (λ es. signals_of es
        ≡ variable_signals (model_tree t.now.model).symbols first.state first.input (model_tree t.now.model).variables) }
{
    let mut signals = Items::new(alloc);
    let mut places = first;
    for i in 0..t.model().variables.len() {
        places.check()?;
        let role = t.model().variables.at(i).role;
        let domain = t.domain(i);
        let signal = variable_signal(alloc, domain, places.of(role), symbols)?;
        signals.push(signal)?;
        places = places.after(role, domain_width(domain));
    }
    Ok(signals)
}

/// The signal of a variable with this domain whose bits begin at `place`.
fn variable_signal(
    alloc: Global,
    domain: &Domain,
    place: u64,
    symbols: u32,
) -> Result<Signal, OutOfMemory>
    requires least { 1 ≤ place }
    requires greatest { place < 2 ^ 32 }
    ensures { IfOk result (λ e. signal_of e ≡ domain_signal symbols domain.now place) }
{
    match ends_of(domain) {
        Some(ends) => number_signal(alloc, ends, place, value_width(domain, ends, symbols)),
        None => Ok(Signal::Bit(Lit::new(place, false))),
    }
}

/// The width of the word of a domain's values.
fn value_width(domain: &Domain, ends: Ends, symbols: u32) -> u32
    ensures { result ≡ value_width symbols domain.now ends }
{
    match domain {
        Domain::Symbols(_) => symbols,
        _ => word_width(ends.lo, ends.hi),
    }
}

/// The word of numbers between these ends whose bits begin at `place`, at that width.
fn number_signal(alloc: Global, ends: Ends, place: u64, wide: u32) -> Result<Signal, OutOfMemory>
    requires least { 1 ≤ place }
    requires greatest { place < 2 ^ 32 }
    ensures { IfOk result (λ e. signal_of e ≡ number_signal wide (Some ends) place) }
{
    let bits = literals_from(alloc, width(ends.lo, ends.hi), place)?;
    let word = with_sign(ends.lo, bits)?;
    let fitted = fitted(alloc, &word, wide)?;
    Ok(Signal::Word(fitted))
}

/// So many variables from one on.
pub(crate) fn literals_from(alloc: Global, count: u32, place: u64) -> Result<Word, OutOfMemory>
    requires least { 1 ≤ place }
    requires greatest { place < 2 ^ 32 }
    ensures { IfOk result (λ w. w ≡ literals_from count place) }
{
    let mut word = Items::new(alloc);
    for i in 0..count {
        word.push(Lit::new(place + i as u64, false))?;
    }
    Ok(word)
}

/// Numbers that are never below 0 have no bit for the sign.
fn with_sign(lo: i64, word: Word) -> Result<Word, OutOfMemory>
    ensures { IfOk result (λ w. w ≡ with_sign lo word) }
{
    let mut word = word;
    if lo >= 0 {
        word.push(Lit::new(1, true))?;
    }
    Ok(word)
}
