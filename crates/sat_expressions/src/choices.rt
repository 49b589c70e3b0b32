//! The choices of a case: its value as a chain of multiplexers.
//!
//! [`choices`] is the main function. The last value stands where no condition holds; from the last condition back
//! to the first each chooses between its own value and what came out behind it.
ghost use Rattle.std.specs.Prelude.{◌≡◌, ◌≤◌, ◌+◌, IfOk, length};
ghost use Rattle.sat_circuits.specs.Meaning.{AllBelow};
ghost use Rattle.smv_language.specs.Trace.{Each};
ghost use Rattle.sat_encoding_laws.specs.Meanings.{IsSignal};
ghost use Rattle.sat_expressions.specs.BuiltSignals.{signals_of, BuildsSignal};
ghost use Rattle.sat_expressions.specs.Choices.{chosen_gates};

use crate::signal::{Signal, choice};
use base_values::OutOfMemory;
use sat_circuits::gates::Gates;
use sat_clauses::lit::Lit;
use std::alloc::Global;

/// The choices between values by conditions, one fewer, from the last but one to the first, at that width.
pub fn choices(
    alloc: Global,
    g: &mut Gates,
    width: u32,
    conditions: &[Lit],
    values: &[Signal],
) -> Result<Signal, OutOfMemory>
    requires some { 1 ≤ width }
    requires long { length values.now ≡ length conditions.now + 1 }
    requires conditions { AllBelow g.old.free conditions.now }
    requires values { Each (IsSignal g.old) (signals_of values.now) }
    ensures { IfOk result (BuildsSignal g.old (chosen_gates width conditions.now (signals_of values.now) g.old) g.new) }
{
    let mut left = conditions.len();
    let last = values[left].copy()?;
    let mut chosen = last.fitted(alloc, g, width)?;
    while left > 0 {
        left -= 1;
        let value = values[left].copy()?;
        chosen = choice(alloc, g, width, conditions[left], value, chosen)?;
    }
    Ok(chosen)
}
