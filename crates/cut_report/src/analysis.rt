//! The report of an analysis ([`print_analysis`]), piece by piece at the end of one buffer. Its text stands in `cut_text_laws`.
ghost use Rattle.std.specs.Prelude.{◌≡◌, ◌++◌, codes, map, length, IfOk, OnOk};
ghost use Rattle.std.specs.Fmt.{decimal};
ghost use Rattle.smv_language.specs.ModelTree.{model_tree, name_of_fault};
ghost use Rattle.cut_text_laws.specs.AnalysisText.{numbers_text, set_lines, trace_parts, first_line, ending_text, size_line, analysis_text};
ghost use Rattle.cut_text_laws.specs.TraceText.{trace_text};
ghost use Rattle.cut_report.specs.FaultText.{faults_text};
ghost use Rattle.smv_language.specs.NumberedValues.{told_trace};
ghost use Rattle.cut_report.specs.AnalysisView.{told_analysis, told_traces};
ghost use Rattle.cut_text_laws.specs.Analysis.{told_ending};

use crate::fault_list::print_faults;
use crate::traces::print_trace;
use base_values::{ByteList, Ending, FaultSet, MomentList, OutOfMemory, SetList, TraceList};
use smv_language::model::FaultList;
use smv_types::Typed;
use std::alloc::Global;

/// What a report prints of an analysis: its sets and a trace for each, whether there is a first moment, how it ended, and how many faults
/// a set has at most.
#[derive(Drop)]
pub struct Findings<'a> {
    pub sets: &'a SetList,
    pub traces: &'a TraceList,
    pub first: bool,
    pub ending: Ending,
    pub size: u32,
}

/// The report of an analysis of the model with these faults: the lines of the faults; the sets and their number, and a
/// line for each set with its numbers; each trace under its number, from 1; `no first moment` where there is none; how
/// the analysis ended, with so many bits of a state where it is bounded; and the size where it is below the number of
/// faults.
pub fn print_analysis(
    alloc: Global,
    t: &Typed,
    faults: &FaultList,
    bits: u32,
    found: &Findings,
) -> Result<ByteList, OutOfMemory>
    ensures { IfOk result (λ text. text ≡ analysis_text (faults_text (map name_of_fault faults.now))
        (model_tree t.now.model) bits (length faults.now) found.now.size
        (told_analysis t.now.model.symbols found.now.sets.now found.now.traces.now found.now.first found.now.ending)) }
{
    let mut text = print_faults(alloc, faults)?;
    append_found(alloc, &mut text, t, found.sets, found.traces)?;
    append_end(alloc, &mut text, found.first, found.ending, bits)?;
    append_size(alloc, &mut text, found.size, faults.len())?;
    Ok(text)
}

/// Appends the sets and the traces.
#[tactic(auto, using(crate::proofs::TextLaws::text_rules))]
fn append_found(
    alloc: Global,
    text: &mut ByteList,
    t: &Typed,
    sets: &SetList,
    traces: &TraceList,
) -> Result<(), OutOfMemory>
    ensures { OnOk result (text.new ≡ text.old ++ (codes "sets " ++ (decimal (length sets.now) ++
        (codes "\n" ++ (set_lines sets.now ++ trace_parts (model_tree t.now.model) 1 (told_traces t.now.model.symbols traces.now)))))) }
{
    text.append(b"sets ")?;
    text.append_number(alloc, sets.len() as u64)?;
    text.append(b"\n")?;
    append_sets(alloc, text, sets.as_slice())?;
    append_traces(alloc, text, t, traces.as_slice())
}

/// Appends a line for each set.
#[tactic(auto, using(crate::proofs::TextLaws::text_rules))]
pub fn append_sets(alloc: Global, text: &mut ByteList, sets: &[FaultSet]) -> Result<(), OutOfMemory>
    ensures { OnOk result (text.new ≡ text.old ++ set_lines sets.now) }
{
    for set in sets {
        append_set(alloc, text, set.as_slice())?;
    }
    Ok(())
}

/// Appends the line of one set.
#[tactic(auto, using(crate::proofs::TextLaws::text_rules))]
fn append_set(alloc: Global, text: &mut ByteList, set: &[u32]) -> Result<(), OutOfMemory>
    ensures { OnOk result (text.new ≡ text.old ++ (codes "set" ++ (numbers_text set.now ++ codes "\n"))) }
{
    text.append(b"set")?;
    append_numbers(alloc, text, set)?;
    text.append(b"\n")
}

/// Appends each number after a space.
#[tactic(auto, using(crate::proofs::TextLaws::text_rules))]
fn append_numbers(alloc: Global, text: &mut ByteList, numbers: &[u32]) -> Result<(), OutOfMemory>
    ensures { OnOk result (text.new ≡ text.old ++ numbers_text numbers.now) }
{
    for number in numbers {
        text.append(b" ")?;
        text.append_number(alloc, u64::from(*number))?;
    }
    Ok(())
}

/// Appends each trace under its number.
#[tactic(auto, using(crate::proofs::TextLaws::text_rules))]
fn append_traces(
    alloc: Global,
    text: &mut ByteList,
    t: &Typed,
    traces: &[MomentList],
) -> Result<(), OutOfMemory>
    ensures { OnOk result (text.new ≡ text.old ++ trace_parts (model_tree t.now.model) 1 (told_traces t.now.model.symbols traces.now)) }
{
    for (i, trace) in traces.iter().enumerate() {
        append_trace(alloc, text, t, i + 1, trace)?;
    }
    Ok(())
}

/// Appends a trace under its number.
#[tactic(auto, using(crate::proofs::TextLaws::text_rules))]
fn append_trace(
    alloc: Global,
    text: &mut ByteList,
    t: &Typed,
    number: usize,
    trace: &MomentList,
) -> Result<(), OutOfMemory>
    ensures { OnOk result (text.new ≡ text.old ++ (codes "trace " ++
        (decimal number ++ (codes "\n" ++ trace_text (model_tree t.now.model) (told_trace t.now.model.symbols trace.now))))) }
{
    text.append(b"trace ")?;
    text.append_number(alloc, number as u64)?;
    text.append(b"\n")?;
    let moments = print_trace(alloc, t, trace)?;
    text.append(moments.as_slice())
}

/// Appends that there is no first moment, where there is none, and how the analysis ended.
#[tactic(auto, using(crate::proofs::TextLaws::text_rules))]
fn append_end(
    alloc: Global,
    text: &mut ByteList,
    first: bool,
    ending: Ending,
    bits: u32,
) -> Result<(), OutOfMemory>
    ensures { OnOk result (text.new ≡ text.old ++ (first_line first ++ (ending_text (told_ending ending) bits ++ codes "\n"))) }
{
    append_first(text, first)?;
    append_ending(alloc, text, ending, bits)?;
    text.append(b"\n")
}

/// Appends that there is no first moment, where there is none.
fn append_first(text: &mut ByteList, first: bool) -> Result<(), OutOfMemory>
    ensures { OnOk result (text.new ≡ text.old ++ first_line first) }
{
    if first {
        return Ok(());
    }
    text.append(b"no first moment\n")
}

/// Appends how an analysis ended, with the bits of a state where it is bounded.
#[tactic(auto, using(crate::proofs::TextLaws::text_rules))]
pub fn append_ending(
    alloc: Global,
    text: &mut ByteList,
    ending: Ending,
    bits: u32,
) -> Result<(), OutOfMemory>
    ensures { OnOk result (text.new ≡ text.old ++ ending_text (told_ending ending) bits) }
{
    match ending {
        Ending::Complete => text.append(b"complete"),
        Ending::Bounded(steps) => append_bounded(alloc, text, steps, bits),
    }
}

/// Appends that an analysis is bounded by so many steps over so many bits.
#[tactic(auto, using(crate::proofs::TextLaws::text_rules))]
fn append_bounded(
    alloc: Global,
    text: &mut ByteList,
    steps: u32,
    bits: u32,
) -> Result<(), OutOfMemory>
    ensures { OnOk result (text.new ≡ text.old ++ (codes "bounded " ++ (decimal steps ++ (codes " bits " ++ decimal bits)))) }
{
    text.append(b"bounded ")?;
    text.append_number(alloc, u64::from(steps))?;
    text.append(b" bits ")?;
    text.append_number(alloc, u64::from(bits))
}

/// Appends the size, where it is below the number of faults.
#[tactic(auto, using(crate::proofs::TextLaws::text_rules))]
fn append_size(
    alloc: Global,
    text: &mut ByteList,
    size: u32,
    faults: usize,
) -> Result<(), OutOfMemory>
    ensures { OnOk result (text.new ≡ text.old ++ size_line size faults) }
{
    if size as usize >= faults {
        return Ok(());
    }
    text.append(b"size ")?;
    text.append_number(alloc, u64::from(size))?;
    text.append(b"\n")
}
