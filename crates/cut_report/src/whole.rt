//! The trace that a text gives, or what is wrong with it first ([`read_trace`]): line after line, and moments that lack a
//! value after all faults of lines.
ghost use Rattle.std.specs.Prelude.{IfOk, IfErr};
ghost use Rattle.smv_language.specs.ModelTree.{model_tree};
ghost use Rattle.cut_text_laws.specs.TraceOfText.{IsPrintable, BytesGive};
ghost use Rattle.smv_language.specs.NumberedValues.{told_trace};
ghost use Rattle.cut_report.specs.Faults.{IsFaultOf};
ghost use Rattle.cut_report.specs.TraceReading.{ended, IsFinished, IsUnfinished};
ghost use Rattle.cut_text_laws.specs.TraceOfText.{HasItsSymbols};

use crate::fault::TraceFault;
use crate::lookup::{Lookup, printed_names};
use crate::reading::TraceReading;
use base_values::{MomentList, first_line};
use smv_types::Typed;
use std::alloc::Global;

/// The trace that a text gives, or what is wrong first with it.
///
/// A text gives at most one trace, and where it gives one nothing is wrong with it (`cut_text_laws`). So the
/// trace is answered exactly where the text gives one, and a fault exactly where it is the first, unless
/// memory is wanting.
pub fn read_trace(alloc: Global, t: &Typed, bytes: &[u8]) -> Result<MomentList, TraceFault>
    requires printable { IsPrintable (model_tree t.now.model) }
    requires symbols { HasItsSymbols (model_tree t.now.model) }
    ensures trace { IfOk result (λ trace. BytesGive (model_tree t.now.model) bytes.now (told_trace t.now.model.symbols trace)) }
    ensures fault { IfErr result (IsFaultOf (model_tree t.now.model) bytes.now) }
{
    let names = printed_names(alloc, t.model().variables.as_slice())?;
    let lookup = Lookup::of(alloc, t, names.as_slice())?;
    read_lines(alloc, &lookup, bytes)
}

/// Reads line after line.
fn read_lines(alloc: Global, lookup: &Lookup<'_>, bytes: &[u8]) -> Result<MomentList, TraceFault>
    requires printable { IsPrintable (model_tree lookup.now.typed.now.model) }
    requires symbols { HasItsSymbols (model_tree lookup.now.typed.now.model) }
    ensures trace { IfOk result
        (λ trace. BytesGive (model_tree lookup.now.typed.now.model) bytes.now (told_trace lookup.now.typed.now.model.symbols trace)) }
    ensures fault { IfErr result (IsFaultOf (model_tree lookup.now.typed.now.model) bytes.now) }
{
    let mut reading = TraceReading::new(alloc, lookup.typed.model().variables.len())?;
    let mut rest = bytes;
    let mut number: u64 = 1;
    while let Some((line, after)) = first_line(rest) {
        if let Err(cause) = reading.take(alloc, lookup, line) {
            return Err(cause.at_line(number));
        }
        rest = after;
        number += 1;
    }
    if rest.len() > 0 {
        return Err(TraceFault::BadLine(number));
    }
    finished(alloc, reading)
}

/// The trace of all lines, none of which is wrong.
fn finished(alloc: Global, mut reading: TraceReading) -> Result<MomentList, TraceFault>
    ensures trace { IfOk result (IsFinished (ended reading)) }
    ensures fault { IfErr result (IsUnfinished (ended reading)) }
{
    reading.end_moment(alloc)?;
    let TraceReading {
        begun,
        slots: _,
        moments,
    } = reading;
    if begun == 0 {
        return Err(TraceFault::BadLine(1));
    }
    let complete = moments.len() as u64;
    if complete < begun {
        return Err(TraceFault::MissingValue(complete));
    }
    Ok(moments)
}
