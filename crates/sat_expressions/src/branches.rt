//! The first of a case's branches: the conditions and the values, and then the choices between these.
ghost use Rattle.std.specs.Prelude.{◌≡◌, ◌≢◌, ◌↔◌, ◌≤◌, ◌+◌, ◌∷◌, ◌++◌, [], Some, None, IfOk, IsTrue, length};
ghost use Rattle.smv_language.specs.Trace.{Each};
ghost use Rattle.sat_clauses.specs.Models.{IsBelow};
ghost use Rattle.sat_circuits.specs.Meaning.{AllBelow};
ghost use Rattle.sat_encoding_laws.specs.Signals.{literal_in};
ghost use Rattle.sat_encoding_laws.specs.Meanings.{IsSignal};
ghost use Rattle.sat_expressions.specs.BuiltSignals.{signal_of, signals_of};
ghost use Rattle.sat_expressions.specs.Branches.{widened_sort, BuildsFirstOf};

use crate::choices::choices;
use crate::names::{NamedSignals, SignalList};
use crate::part::{ExpressionSignal, joined_sort, sort_or_truth, truth};
use crate::width::sort_width;
use base_values::{Items, OutOfMemory};
use sat_circuits::gates::Gates;
use sat_circuits::word::Word;
use smv_types::Sort;
use std::alloc::Global;

/// The conditions of a case's branches, but the last, their values, and what is known of all of these.
#[derive(Drop)]
pub struct BranchSignals {
    /// The literal of each condition.
    pub conditions: Word,
    /// The signal of each value.
    pub values: SignalList,
    /// What is known of any of the values; of none where there is none.
    pub sort: Option<Sort>,
}

/// No branch yet.
pub fn no_parts(alloc: Global) -> BranchSignals
    ensures { result ≡ record { conditions = []; values = []; sort = None } }
{
    BranchSignals {
        conditions: Items::new(alloc),
        values: Items::new(alloc),
        sort: None,
    }
}

/// With one more condition.
pub fn with_condition(
    g: &Gates,
    parts: BranchSignals,
    c: ExpressionSignal,
) -> Result<BranchSignals, OutOfMemory>
    requires { IsSignal g.now (signal_of c.signal) }
    ensures made { IfOk result (λ made. made ≡ record parts { conditions = parts.conditions ++ literal_in (signal_of c.signal) ∷ [] }) }
    ensures below { IsBelow g.now.free (literal_in (signal_of c.signal)) }
{
    let l = c.signal.literal(g);
    let BranchSignals {
        mut conditions,
        values,
        sort,
    } = parts;
    conditions.push(l)?;
    Ok(BranchSignals {
        conditions,
        values,
        sort,
    })
}

/// With one more value.
pub fn with_value(
    parts: BranchSignals,
    value: ExpressionSignal,
) -> Result<BranchSignals, OutOfMemory>
    ensures conditions { IfOk result (λ made. made.conditions ≡ parts.conditions) }
    ensures values { IfOk result (λ made. signals_of made.values ≡ signals_of parts.values ++ signal_of value.signal ∷ []) }
    ensures sort { IfOk result (λ made. made.sort ≡ Some (widened_sort parts.sort value.sort)) }
{
    let BranchSignals {
        conditions,
        mut values,
        sort,
    } = parts;
    values.push(value.signal)?;
    Ok(BranchSignals {
        conditions,
        values,
        sort: Some(widened_sort(sort, value.sort)),
    })
}

/// What is known of values so far and one more.
fn widened_sort(before: Option<Sort>, sort: Sort) -> Sort
    ensures { result ≡ widened_sort before sort }
{
    match before {
        Some(before) => joined_sort(before, sort),
        None => sort,
    }
}

/// The choices between the values of a case's branches. A case without branches has no value.
pub fn first_of(
    alloc: Global,
    g: &mut Gates,
    names: &NamedSignals<'_>,
    parts: BranchSignals,
) -> Result<ExpressionSignal, OutOfMemory>
    requires symbols { 1 ≤ names.now.symbols }
    requires conditions { AllBelow g.old.free parts.conditions }
    requires values { Each (IsSignal g.old) (signals_of parts.values) }
    ensures { IfOk result (BuildsFirstOf names.now.symbols parts g.old g.new) }
{
    if is_one_more(parts.conditions.len(), parts.values.len()) {
        chosen_of(alloc, g, names, &parts)
    } else {
        Ok(none_of(g, names, &parts))
    }
}

// Whether there is one more of the second than of the first.
fn is_one_more(few: usize, many: usize) -> bool
    ensures { IsTrue result ↔ (many ≡ few + 1) }
{
    few < many && many - few == 1
}

/// The choices, where there is one value more than conditions.
fn chosen_of(
    alloc: Global,
    g: &mut Gates,
    names: &NamedSignals<'_>,
    parts: &BranchSignals,
) -> Result<ExpressionSignal, OutOfMemory>
    requires symbols { 1 ≤ names.now.symbols }
    requires conditions { AllBelow g.old.free parts.now.conditions }
    requires values { Each (IsSignal g.old) (signals_of parts.now.values) }
    requires long { length parts.now.values ≡ length parts.now.conditions + 1 }
    ensures { IfOk result (BuildsFirstOf names.now.symbols parts.now g.old g.new) }
{
    let width = sort_width(names.symbols, sort_or_truth(parts.sort));
    let (conditions, values) = (parts.conditions.as_slice(), parts.values.as_slice());
    let signal = choices(alloc, g, width, conditions, values)?;
    Ok(ExpressionSignal {
        signal,
        sort: sort_or_truth(parts.sort),
    })
}

/// What stands for the value that a case without branches lacks.
fn none_of(g: &Gates, names: &NamedSignals<'_>, parts: &BranchSignals) -> ExpressionSignal
    requires { length parts.now.values ≢ length parts.now.conditions + 1 }
    ensures { BuildsFirstOf names.now.symbols parts.now g.now g.now result }
{
    truth(g.constant(false))
}
