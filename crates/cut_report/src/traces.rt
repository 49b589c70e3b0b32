//! The text of a trace ([`print_trace`]): each moment, and in it each variable's value.
ghost use Rattle.std.specs.Prelude.{◌≡◌, ◌∷◌, ◌++◌, [], map, slice_get, IfOk, OnOk};
ghost use Rattle.cut_text_laws.specs.Lines.{fed};
ghost use Rattle.smv_language.specs.ModelTree.{model_tree, variable_tree};
ghost use Rattle.cut_text_laws.specs.TraceText.{value_line, value_lines, moment_line, trace_text};
ghost use Rattle.smv_language.specs.NumberedValues.{told_value, told_moment, told_trace};
ghost use Rattle.smv_language.specs.Values.{value_text};
ghost use Rattle.smv_language.specs.Texts.{text_or_none};

use crate::text::append_variable;
use base_values::{ByteList, MomentList, Name, OutOfMemory, Valuation, Value};
use smv_language::model::{FlatModel, Variable};
use smv_types::Typed;
use std::alloc::Global;

/// The text of a trace of the model: for each moment, numbered from 0, the line `moment i`, and for each
/// variable in flat order the line `name = value`.
pub fn print_trace(alloc: Global, t: &Typed, trace: &MomentList) -> Result<ByteList, OutOfMemory>
    ensures { IfOk result (λ text. text ≡ trace_text (model_tree t.now.model) (told_trace t.now.model.symbols trace.now)) }
{
    print_moments(alloc, t.model(), trace.as_slice())
}

/// The text of moments over a flat model.
#[tactic(auto, using(crate::proofs::TextLaws::text_rules))]
fn print_moments(alloc: Global, m: &FlatModel, trace: &[Valuation]) -> Result<ByteList, OutOfMemory>
    ensures { IfOk result (λ text. text ≡ trace_text (model_tree m.now) (told_trace m.now.symbols trace.now)) }
{
    let mut text = ByteList::new(alloc);
    for (i, moment) in trace.iter().enumerate() {
        append_moment(alloc, &mut text, m, i, moment)?;
    }
    Ok(text)
}

/// Appends the lines of a moment.
#[tactic(auto, using(crate::proofs::TextLaws::text_rules))]
fn append_moment(
    alloc: Global,
    text: &mut ByteList,
    m: &FlatModel,
    number: usize,
    moment: &Valuation,
) -> Result<(), OutOfMemory>
    ensures { OnOk result (text.new ≡ text.old ++ fed (moment_line number ∷ value_lines
        (map variable_tree m.now.variables) (told_moment m.now.symbols moment.now))) }
{
    text.append(b"moment ")?;
    text.append_number(alloc, number as u64)?;
    text.append(b"\n")?;
    append_values(alloc, text, m, moment)
}

/// Appends the line of each variable's value.
#[tactic(auto, using(crate::proofs::TextLaws::text_rules))]
fn append_values(
    alloc: Global,
    text: &mut ByteList,
    m: &FlatModel,
    moment: &Valuation,
) -> Result<(), OutOfMemory>
    ensures { OnOk result (text.new
        ≡ text.old ++ fed (value_lines (map variable_tree m.now.variables) (told_moment m.now.symbols moment.now))) }
{
    for (i, variable) in m.variables.as_slice().iter().enumerate() {
        if i < moment.len() {
            append_line(alloc, text, m.symbols.as_slice(), variable, moment.get(i))?;
        }
    }
    Ok(())
}

/// Appends the line of one variable's value.
#[tactic(auto, using(crate::proofs::TextLaws::text_rules))]
fn append_line(
    alloc: Global,
    text: &mut ByteList,
    symbols: &[Name],
    variable: &Variable,
    value: Value,
) -> Result<(), OutOfMemory>
    ensures { OnOk result (text.new ≡ text.old ++ (value_line (variable_tree variable.now) (told_value symbols.now value) ++ 10 ∷ [])) }
{
    append_variable(text, variable)?;
    text.append(b" = ")?;
    append_value(alloc, text, symbols, value)?;
    text.append(b"\n")
}

/// Appends a value's text.
fn append_value(
    alloc: Global,
    text: &mut ByteList,
    symbols: &[Name],
    value: Value,
) -> Result<(), OutOfMemory>
    ensures { OnOk result (text.new ≡ text.old ++ value_text (told_value symbols.now value)) }
{
    match value {
        Value::Bool(true) => text.append(b"TRUE"),
        Value::Bool(false) => text.append(b"FALSE"),
        Value::Num(number) => text.append_signed(alloc, number),
        Value::Sym(symbol) => text.append(symbol_text(symbols, symbol)),
    }
}

/// The name of a symbol, by its number. A number beyond the last names none.
fn symbol_text(symbols: &[Name], symbol: u32) -> &[u8]
    ensures { result.now ≡ text_or_none (slice_get symbols.now symbol) }
{
    match symbols.get(symbol as usize) {
        Some(name) => name.text(),
        None => b"",
    }
}
