//! A report as JSON (RFC 8259), in ASCII alone. [`json_of`] is the main function.
ghost use Rattle.std.specs.Prelude.{◌≡◌, IfOk};
ghost use Rattle.xsap_reports.specs.Json.{sets_in_json};
ghost use Rattle.xsap_reports.specs.JsonText.{json_text};
ghost use Rattle.xsap_reports.specs.Reports.{HasNames, set_names};

use crate::json_sets::{append_sets, append_string};
use crate::moments::{Values, is_changed};
use crate::report::{Line, Report, ReportEnding, ReportMoment, ReportTrace};
use base_values::{ByteList, OutOfMemory};
use std::alloc::Global;

/// The report as an object: `sets` (each an object of `names` and `numbers`), `faults` (their names), `values` (`all` or `changes`, as
/// asked for), `traces` (each a list of moments, which are objects of values by variables), `first` (whether there is a first moment),
/// `ending` (`complete`, or with `steps` and `bits`) and `size` (null where none is given). In a string a byte that is no printed ASCII
/// character stands as `\u00XX`.
pub fn json_of(alloc: Global, report: &Report<'_>, values: Values) -> Result<Vec<u8>, OutOfMemory>
    // What a reader of JSON finds first under `sets` are the sets.
    ensures read_back { HasNames report.now → IfOk result (λ text. sets_in_json text.items ≡ set_names report.now) }
{
    let rest = rest_of(alloc, report, values)?;
    with_sets(alloc, report, rest.as_slice())
}

/// The object, with this behind its sets.
#[tactic(auto, using(crate::proofs::TextRules::text_rules))]
fn with_sets(alloc: Global, report: &Report<'_>, rest: &[u8]) -> Result<Vec<u8>, OutOfMemory>
    ensures { IfOk result (λ text. text.items ≡ json_text report.now rest.now) }
{
    let mut text = ByteList::new(alloc);
    text.append(b"{\"sets\":[")?;
    append_sets(alloc, &mut text, &report.faults, &report.sets)?;
    text.append(b"]")?;
    text.append(rest)?;
    Ok(text.into_vec())
}

/// What stands behind the sets.
fn rest_of(alloc: Global, report: &Report<'_>, values: Values) -> Result<ByteList, OutOfMemory> {
    let mut text = ByteList::new(alloc);
    text.append(b",\"faults\":[")?;
    append_strings(&mut text, &report.faults)?;
    append_values_word(&mut text, values)?;
    append_traces(&mut text, &report.traces, values)?;
    append_end(alloc, &mut text, report)?;
    Ok(text)
}

/// Appends which values are shown.
fn append_values_word(text: &mut ByteList, values: Values) -> Result<(), OutOfMemory> {
    match values {
        Values::All => text.append(b"],\"values\":\"all\",\"traces\":["),
        Values::Changes => text.append(b"],\"values\":\"changes\",\"traces\":["),
    }
}

/// Appends what stands behind the traces.
fn append_end(alloc: Global, text: &mut ByteList, report: &Report<'_>) -> Result<(), OutOfMemory> {
    text.append(b"],\"first\":")?;
    append_truth(text, report.has_first)?;
    text.append(b",\"ending\":")?;
    append_ending(alloc, text, report.ending)?;
    text.append(b",\"size\":")?;
    append_size(alloc, text, report.size)?;
    text.append(b"}\n")
}

/// Appends a truth value.
fn append_truth(text: &mut ByteList, truth: bool) -> Result<(), OutOfMemory> {
    if truth {
        text.append(b"true")
    } else {
        text.append(b"false")
    }
}

/// Appends how the analysis ended.
fn append_ending(
    alloc: Global,
    text: &mut ByteList,
    ending: ReportEnding,
) -> Result<(), OutOfMemory> {
    match ending {
        ReportEnding::Complete => text.append(b"{\"complete\":true}"),
        ReportEnding::Bounded { steps, bits } => {
            text.append(b"{\"complete\":false,\"steps\":")?;
            text.append_number(alloc, u64::from(steps))?;
            text.append(b",\"bits\":")?;
            text.append_number(alloc, u64::from(bits))?;
            text.append(b"}")
        }
    }
}

/// Appends a size, or null.
fn append_size(alloc: Global, text: &mut ByteList, size: Option<u32>) -> Result<(), OutOfMemory> {
    match size {
        Some(size) => text.append_number(alloc, u64::from(size)),
        None => text.append(b"null"),
    }
}

/// Appends a comma before every item but the first.
fn append_comma(text: &mut ByteList, place: usize) -> Result<(), OutOfMemory> {
    if place == 0 {
        Ok(())
    } else {
        text.append(b",")
    }
}

/// Appends texts as strings with commas between.
fn append_strings(text: &mut ByteList, texts: &[&[u8]]) -> Result<(), OutOfMemory> {
    for (i, bytes) in texts.iter().enumerate() {
        append_comma(text, i)?;
        append_string(text, bytes)?;
    }
    Ok(())
}

/// Appends each trace.
fn append_traces(
    text: &mut ByteList,
    traces: &[ReportTrace<'_>],
    values: Values,
) -> Result<(), OutOfMemory> {
    for (i, trace) in traces.iter().enumerate() {
        append_comma(text, i)?;
        text.append(b"[")?;
        append_moments(text, &trace.moments, values)?;
        text.append(b"]")?;
    }
    Ok(())
}

/// Appends each moment.
fn append_moments(
    text: &mut ByteList,
    moments: &[ReportMoment<'_>],
    values: Values,
) -> Result<(), OutOfMemory> {
    for (i, moment) in moments.iter().enumerate() {
        append_comma(text, i)?;
        text.append(b"{")?;
        append_values(text, moments, i, &moment.lines, values)?;
        text.append(b"}")?;
    }
    Ok(())
}

/// Appends the values that are shown of the moment at a place, which has these lines.
fn append_values(
    text: &mut ByteList,
    moments: &[ReportMoment<'_>],
    at: usize,
    lines: &[Line<'_>],
    values: Values,
) -> Result<(), OutOfMemory> {
    let mut is_first = true;
    for (i, line) in lines.iter().enumerate() {
        if values == Values::All || is_changed(moments, at, i, line) {
            if !is_first {
                text.append(b",")?;
            }
            append_value(text, line)?;
            is_first = false;
        }
    }
    Ok(())
}

/// Appends a variable and its value.
fn append_value(text: &mut ByteList, line: &Line<'_>) -> Result<(), OutOfMemory> {
    append_string(text, line.name)?;
    text.append(b":")?;
    append_string(text, line.value)
}
