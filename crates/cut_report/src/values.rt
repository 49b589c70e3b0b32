//! The value that a text stands for in a variable's domain ([`value_of`]). A number has one text alone, the printed one.
ghost use lib.Signed.{mag};
ghost use Rattle.std.specs.Prelude.{◌≡◌, ℤ, ◌<◌, ◌^◌, List, Some, IfOk};
ghost use Rattle.std.specs.Fmt.{signed_decimal};
ghost use Rattle.smv_language.specs.ProgramTree.{Text};
ghost use Rattle.cut_report.specs.ValueReading.{IsTruth, IsNumber, IsSymbol, IsReadOf, IsAmong, IsReadIn, IsParsed};

use base_values::{Domain, OutOfMemory, Value};
use smv_types::TextNumbers;
use std::alloc::Global;

/// The value of a domain that has this text, where one has it.
pub(crate) fn value_of(
    alloc: Global,
    domain: &Domain,
    symbols: &TextNumbers<'_>,
    text: &[u8],
) -> Result<Option<Value>, OutOfMemory>
    ensures { IfOk result (IsReadIn symbols.now.texts.now domain.now text.now) }
{
    let value = parsed_for(alloc, domain, symbols, text)?;
    Ok(among(domain, value))
}

/// The value of the domain's class that has this text.
fn parsed_for(
    alloc: Global,
    domain: &Domain,
    symbols: &TextNumbers<'_>,
    text: &[u8],
) -> Result<Option<Value>, OutOfMemory>
    ensures { IfOk result (IsParsed symbols.now.texts.now domain.now text.now) }
{
    match domain {
        Domain::Boolean => Ok(truth_of(text)),
        Domain::Range { .. } => number_of(alloc, text),
        Domain::Numbers(_) => number_of(alloc, text),
        Domain::Symbols(_) => Ok(symbol_of(symbols, text)),
    }
}

/// The value, where the domain has it.
fn among(domain: &Domain, value: Option<Value>) -> Option<Value>
    ensures { IsAmong domain.now value result }
{
    match value {
        Some(value) => { if domain.has(value) { Some(value) } else { None } }
        None => None,
    }
}

/// The truth value of this text.
fn truth_of(text: &[u8]) -> Option<Value>
    ensures { (symbols : List Text) → IsReadOf IsTruth symbols text.now result }
{
    match text {
        b"TRUE" => Some(Value::Bool(true)),
        b"FALSE" => Some(Value::Bool(false)),
        _ => None,
    }
}

/// The symbol of this text.
fn symbol_of(symbols: &TextNumbers<'_>, text: &[u8]) -> Option<Value>
    ensures { IsReadOf IsSymbol symbols.now.texts.now text.now result }
{
    match symbols.number_of(text) {
        Some(number) => Some(Value::Sym(number)),
        None => None,
    }
}

/// The number that is printed so.
fn number_of(alloc: Global, text: &[u8]) -> Result<Option<Value>, OutOfMemory>
    ensures { IfOk result (λ value. (symbols : List Text) → IsReadOf IsNumber symbols text.now value) }
{
    match parsed(text) {
        Some(number) => {
            let printed = format!(in alloc; "{number}")?;
            Ok(if printed.as_bytes() == text {
                Some(Value::Num(number))
            } else {
                None
            })
        }
        None => Ok(None),
    }
}

/// The number that is written so, perhaps in more ways than one.
fn parsed(text: &[u8]) -> Option<i64>
    ensures { (n : ℤ) → mag n < 2 ^ 63 → signed_decimal n ≡ text.now → result ≡ Some n }
{
    match std::str::from_utf8(text) {
        Ok(written) => written.parse::<i64>().ok(),
        Err(_) => None,
    }
}
