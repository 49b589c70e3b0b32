//! The clause lists of a model: of its first states, its steps and its states.
//!
//! [`encode`] is the main function. [`first_gates`] and [`step_gates`] make one of its lists alone, and [`state_gates`] that of the states.
//! A copy of the model at one moment is the gates of its definitions, with the clauses that its domains and its INVAR formulas hold; the
//! first states are one copy with INIT, the steps two with TRANS. What reads an input is left out of the copy of a state, so that states
//! do not depend on inputs.
ghost use Rattle.std.specs.Prelude.{◌≡◌, ◌≤◌, ◌<◌, ◌^◌, [], false, IfOk, IsOk, OnOk, map};
ghost use Rattle.smv_language.specs.Trace.{Each};
ghost use Rattle.smv_language.specs.ModelTree.{model_tree, formula_tree, flat_tree};
ghost use Rattle.smv_type_laws.specs.Models.{judged_in};
ghost use Rattle.sat_encoding_laws.specs.Widths.{symbol_width};
ghost use Rattle.sat_encoding_laws.specs.Layout.{variable_signals, signals_now, gates_place};
ghost use Rattle.sat_encoding_laws.specs.Meanings.{IsSignal};
ghost use Rattle.sat_encoding_laws.specs.Encodable.{IsEncodable};
ghost use Rattle.sat_encoding_laws.specs.Expressions.{its_value, encoded};
ghost use Rattle.sat_encoding_laws.specs.Lists.{asserted_signal, definitions_gates, formulas_gates, moment_gates, copy_gates, start_of};
ghost use Rattle.sat_encoding_laws.specs.Lists.{state_circuit, state_list, first_list, step_list, system_of};
ghost use Rattle.sat_expressions.specs.BuiltSignals.{signals_of, BuildsSignal};
ghost use Rattle.sat_expressions.specs.ModelNames.{model_of, names_in, copy_of, IsCopied, IsNamed};
ghost use Rattle.sat_encoding.specs.Copies.{source_model, IsSource, IsRightFormula, definition_signal, BuildsDefinitions, BuildsCopy};
ghost use Rattle.sat_encoding.specs.Copies.{Builds, IsPlaced};

use crate::domains::domains;
use crate::inputs::{InputReads, reading_of, reads_input};
use crate::layout::{
    END_OF_VARIABLES, Places, input_bits, places_next, places_now, variable_signals,
};
use base_values::{Items, OutOfMemory};
use sat_circuits::gates::Gates;
use sat_clauses::System;
use sat_expressions::expression::expression;
use sat_expressions::names::{Copied, NamedSignals, SignalList};
use sat_expressions::part::AskedSignal;
use sat_expressions::signal::Signal;
use sat_expressions::width::symbol_width;
use smv_language::Expr;
use smv_language::model::{Flat, FlatModel, Formula};
use smv_types::Typed;
use std::alloc::Global;

/// What all lists of a model are made from.
#[derive(Drop)]
pub(crate) struct ListsSource<'a> {
    /// The model with its kinds.
    pub model: &'a Typed,
    /// Which definitions read an input.
    pub reading: InputReads<'a>,
    /// The bits of the word of a symbol.
    pub symbols: u32,
    /// How many bits the inputs have.
    pub inputs: u32,
}

/// What the lists of a model are made from.
pub(crate) fn source_of<'a>(alloc: Global, t: &'a Typed) -> Result<ListsSource<'a>, OutOfMemory>
    requires encodable { IsEncodable (model_tree t.now.model) }
    ensures model { IfOk result (λ s. s.model.now.model ≡ t.now.model) }
    ensures source { IfOk result IsSource }
{
    let m: &FlatModel = t.model();
    let reading = reading_of(alloc, m)?;
    let inputs = input_bits(t)?;
    Ok(ListsSource {
        model: t,
        reading,
        symbols: symbol_width(m.symbols.len()),
        inputs,
    })
}

/// The clause lists of a model: its first states and its steps, with the exact variables and
/// clauses that `system_of` of `sat_encoding_laws` says. Where they would pass the highest variable the answer is
/// want of memory, too.
pub fn encode(alloc: Global, t: &Typed) -> Result<System, OutOfMemory>
    requires encodable { IsEncodable (model_tree t.now.model) }
    ensures exact { IfOk result (λ s. s ≡ system_of (model_tree t.now.model)) }
{
    let source = source_of(alloc, t)?;
    let first = first_circuit(alloc, &source)?;
    let step = step_circuit(alloc, &source)?;
    Ok(System {
        state_bits: t.bits(),
        input_bits: source.inputs,
        first: first.into_clauses(),
        step: step.into_clauses(),
    })
}

/// The gates whose clauses are the list of a model's first states that `encode` makes. No other list is made.
pub fn first_gates(alloc: Global, t: &Typed) -> Result<Gates, OutOfMemory>
    requires encodable { IsEncodable (model_tree t.now.model) }
    ensures { IfOk result (λ g. g.clauses ≡ first_list (model_tree t.now.model)) }
{
    let source = source_of(alloc, t)?;
    let gates = first_circuit(alloc, &source)?;
    Ok(gates)
}

/// The gates whose clauses are the list of a model's steps that `encode` makes. No other list is made.
pub fn step_gates(alloc: Global, t: &Typed) -> Result<Gates, OutOfMemory>
    requires encodable { IsEncodable (model_tree t.now.model) }
    ensures { IfOk result (λ g. g.clauses ≡ step_list (model_tree t.now.model)) }
{
    let source = source_of(alloc, t)?;
    let gates = step_circuit(alloc, &source)?;
    Ok(gates)
}

/// The gates whose clauses are the list of a model's states. No other list is made.
pub fn state_gates(alloc: Global, t: &Typed) -> Result<Gates, OutOfMemory>
    requires encodable { IsEncodable (model_tree t.now.model) }
    ensures { IfOk result (λ g. g.clauses ≡ state_list (model_tree t.now.model)) }
{
    let source = source_of(alloc, t)?;
    let (gates, _now) = state_copy(alloc, &source)?;
    Ok(gates)
}

/// The variable of the first gate, past the bits. Want of memory, where it is none of those below 2^31, and only there.
fn first_gate(source: &ListsSource<'_>) -> Result<u64, OutOfMemory>
    requires source { IsSource source.now }
    ensures place { IfOk result (λ n. n ≡ gates_place (source_model source.now)) }
    ensures least { IfOk result (λ n. 2 ≤ n) }
    ensures few { IfOk result (λ n. n < 2 ^ 31) }
    ensures fits { gates_place (source_model source.now) < 2 ^ 31 → IsOk result }
{
    let first = 2 * source.model.bits() as u64 + source.inputs as u64 + 2;
    if first >= END_OF_VARIABLES {
        return Err(OutOfMemory);
    }
    Ok(first)
}

/// No gate yet: variable 1 is true, and gates begin past the bits.
fn start(alloc: Global, source: &ListsSource<'_>) -> Result<Gates, OutOfMemory>
    requires source { IsSource source.now }
    ensures { IfOk result (λ g. g ≡ start_of (source_model source.now)) }
{
    let first = first_gate(source)?;
    let gates = Gates::new(alloc, first)?;
    Ok(gates)
}

/// The copy of a model now, without what reads inputs.
pub(crate) fn state_copy(
    alloc: Global,
    source: &ListsSource<'_>,
) -> Result<(Gates, Copied), OutOfMemory>
    requires source { IsSource source.now }
    requires encodable { IsEncodable (source_model source.now) }
    ensures copy { IfOk result (λ r. BuildsCopy (start_of (source_model source.now)) (state_circuit (source_model source.now)) r.0 r.1) }
    ensures variables { IfOk result (λ r. signals_of r.1.variables ≡ signals_now (source_model source.now)) }
{
    let mut g = start(alloc, source)?;
    let now = copied(alloc, &mut g, source, places_now(source.model), false)?;
    Ok((g, now))
}

/// The copy now with all definitions and domains, then that of the next moment, and what holds of the two.
fn step_circuit(alloc: Global, source: &ListsSource<'_>) -> Result<Gates, OutOfMemory>
    requires source { IsSource source.now }
    requires encodable { IsEncodable (source_model source.now) }
    ensures { IfOk result (λ g. g.clauses ≡ step_list (source_model source.now)) }
{
    let t = source.model;
    let mut g = start(alloc, source)?;
    let now = copied(alloc, &mut g, source, places_now(t), true)?;
    let next = copied(alloc, &mut g, source, places_next(t), false)?;
    let names = NamedSignals {
        model: t,
        current: &now,
        next: &next,
        symbols: source.symbols,
    };
    formulas(alloc, &mut g, &names, t.model().trans.as_slice())?;
    Ok(g)
}

/// The copy now without what reads inputs, and what holds of it at first.
fn first_circuit(alloc: Global, source: &ListsSource<'_>) -> Result<Gates, OutOfMemory>
    requires source { IsSource source.now }
    requires encodable { IsEncodable (source_model source.now) }
    ensures { IfOk result (λ g. g.clauses ≡ first_list (source_model source.now)) }
{
    let (mut g, now) = state_copy(alloc, source)?;
    let names = NamedSignals::at(source.model, &now, source.symbols);
    formulas(alloc, &mut g, &names, source.model.model().init.as_slice())?;
    Ok(g)
}

/// A copy of a model with its bits at these places: its definitions, its domains and what holds at each
/// moment; all of them, or those that read no input.
fn copied(
    alloc: Global,
    g: &mut Gates,
    source: &ListsSource<'_>,
    places: Places,
    all: bool,
) -> Result<Copied, OutOfMemory>
    requires source { IsSource source.now }
    requires encodable { IsEncodable (source_model source.now) }
    requires state { 1 ≤ places.state }
    requires input { 1 ≤ places.input }
    requires placed { IsPlaced (source_model source.now) g.old places.state places.input }
    ensures copy { IfOk result (BuildsCopy g.old (copy_gates (source_model source.now)
        (variable_signals (source_model source.now).symbols places.state places.input (source_model source.now).variables) all g.old)
        g.new) }
    ensures variables { IfOk result (λ c. signals_of c.variables
        ≡ variable_signals (source_model source.now).symbols places.state places.input (source_model source.now).variables) }
{
    let variables = variable_signals(alloc, source.model, places, source.symbols)?;
    // The variable of the constants is true, and below the next free one.
    let _ = g.constant(true);
    let copy = definitions(alloc, g, source, variables, all)?;
    moment(alloc, g, source, &copy, all)?;
    Ok(copy)
}

/// What holds of a copy at each moment: the domains, and the formulas.
fn moment(
    alloc: Global,
    g: &mut Gates,
    source: &ListsSource<'_>,
    copy: &Copied,
    all: bool,
) -> Result<(), OutOfMemory>
    requires source { IsSource source.now }
    requires encodable { IsEncodable (source_model source.now) }
    requires usable { IsCopied g.old copy.now }
    ensures { OnOk result (Builds g.old (moment_gates (source_model source.now) (copy_of copy.now) all g.old) g.new) }
{
    domains(alloc, g, source.model, &copy.variables, source.symbols, all)?;
    let names = NamedSignals::at(source.model, copy, source.symbols);
    formulas(alloc, g, &names, source.model.model().invar.as_slice())?;
    Ok(())
}

/// The definitions over these variables, each over those before it. One that reads an input may be left out.
fn definitions(
    alloc: Global,
    g: &mut Gates,
    source: &ListsSource<'_>,
    variables: SignalList,
    all: bool,
) -> Result<Copied, OutOfMemory>
    requires source { IsSource source.now }
    requires encodable { IsEncodable (source_model source.now) }
    requires usable { Each (IsSignal g.old) (signals_of variables) }
    ensures { IfOk result
        (BuildsDefinitions (signals_of variables) g.old (definitions_gates (source_model source.now) (signals_of variables) all g.old)
        g.new) }
{
    let mut copy = Copied {
        variables,
        definitions: Items::new(alloc),
    };
    for d in source.model.model().definitions.as_slice() {
        let signal = definition(alloc, g, source, &copy, d, all)?;
        copy.definitions.push(signal)?;
    }
    Ok(copy)
}

/// One definition more.
fn definition(
    alloc: Global,
    g: &mut Gates,
    source: &ListsSource<'_>,
    copy: &Copied,
    d: &Formula,
    all: bool,
) -> Result<Signal, OutOfMemory>
    requires source { IsSource source.now }
    requires right { IsRightFormula (source_model source.now) (formula_tree d.now) }
    requires usable { IsCopied g.old copy.now }
    ensures { IfOk result (BuildsSignal g.old (definition_signal (source_model source.now)
        (signals_of copy.now.variables) all (formula_tree d.now) (signals_of copy.now.definitions) g.old) g.new) }
{
    if reads_input(&source.reading, &d.value) && !all {
        return Ok(Signal::Bit(g.constant(false)));
    }
    let names = NamedSignals::at(source.model, copy, source.symbols);
    let part = expression(alloc, g, &names, AskedSignal::ItsValue, &d.value)?;
    Ok(part.signal)
}

/// The formulas hold.
pub(crate) fn formulas(
    alloc: Global,
    g: &mut Gates,
    names: &NamedSignals<'_>,
    formulas: &[Formula],
) -> Result<(), OutOfMemory>
    requires named { IsNamed g.old names.now }
    requires right { Each (IsRightFormula (model_of names.now)) (map formula_tree formulas.now) }
    ensures { OnOk result (Builds g.old (formulas_gates (names_in names.now) (map formula_tree formulas.now) g.old) g.new) }
{
    for formula in formulas {
        holds(alloc, g, names, &formula.value)?;
    }
    Ok(())
}

/// The expression is TRUE.
pub(crate) fn holds(
    alloc: Global,
    g: &mut Gates,
    names: &NamedSignals<'_>,
    e: &Expr<Flat>,
) -> Result<(), OutOfMemory>
    requires named { IsNamed g.old names.now }
    requires right { (judged_in (model_of names.now) false (flat_tree e.now)).broken ≡ [] }
    ensures { OnOk result (Builds g.old (asserted_signal (encoded (names_in names.now) its_value (flat_tree e.now) g.old)) g.new) }
{
    let part = expression(alloc, g, names, AskedSignal::ItsValue, e)?;
    let l = part.signal.literal(g);
    g.assert_true(l)?;
    Ok(())
}
