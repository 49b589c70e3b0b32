//! The traces of a report as value changes (IEEE 1364), for viewers of waves as GTKWave. [`vcd_of`] is the main function.
//!
//! Each trace is a scope, and each variable of its first moment a variable of that scope: a wire of one bit for a boolean, an integer of 64
//! bits for numbers, a real where one of them is longer, and else a string. The times are the moments, in one second each. A trace that
//! ends before others keeps its last values. A value that another variable of the report has at a place of a trace is left out.
use crate::columns::{ColumnKind, TraceColumn, columns_of, value_at, whole_of};
use crate::endings::append_ending;
use crate::moments::is_changed;
use crate::pieces::{append_numbered, number_of};
use crate::report::{Report, ReportMoment, ReportTrace};
use base_values::{ByteList, OutOfMemory};
use std::alloc::Global;

/// The value changes of all traces. In the name of a variable each of the signs `$`, `%`, `[`, `\` and `]` stands as `%` and its number in
/// two hexadecimal digits; in a string a backslash stands twice.
pub fn vcd_of(alloc: Global, report: &Report<'_>) -> Result<Vec<u8>, OutOfMemory> {
    let mut text = ByteList::new(alloc);
    text.append(b"$comment ")?;
    append_ending(alloc, &mut text, report)?;
    text.append(b" $end\n$timescale 1 s $end\n")?;
    let waves = waves_of(alloc, &report.traces)?;
    append_scopes(alloc, &mut text, &waves)?;
    text.append(b"$enddefinitions $end\n")?;
    append_changes(alloc, &mut text, &report.traces, &waves)?;
    Ok(text.into_vec())
}

/// The variables of a trace, and the number of the first one among those of all traces.
#[derive(Drop)]
struct Wave<'a> {
    columns: Vec<TraceColumn<'a>>,
    first: u64,
}

/// The variables of each trace.
fn waves_of<'a>(alloc: Global, traces: &[ReportTrace<'a>]) -> Result<Vec<Wave<'a>>, OutOfMemory> {
    let mut waves = Vec::new(alloc);
    let mut first: u64 = 0;
    for trace in traces {
        let columns = columns_of(alloc, &trace.moments)?;
        let count = columns.len() as u64;
        waves.push(Wave { columns, first })?;
        first = first.saturating_add(count);
    }
    Ok(waves)
}

/// Appends a scope for each trace.
fn append_scopes(
    alloc: Global,
    text: &mut ByteList,
    waves: &[Wave<'_>],
) -> Result<(), OutOfMemory> {
    for (i, wave) in waves.iter().enumerate() {
        append_numbered(alloc, text, b"$scope module trace", number_of(i))?;
        text.append(b" $end\n")?;
        append_variables(alloc, text, &wave.columns, wave.first)?;
        text.append(b"$upscope $end\n")?;
    }
    Ok(())
}

/// Appends the variables of a trace, of which the first has this number.
fn append_variables(
    alloc: Global,
    text: &mut ByteList,
    columns: &[TraceColumn<'_>],
    first: u64,
) -> Result<(), OutOfMemory> {
    for (i, column) in columns.iter().enumerate() {
        text.append(head_of(column.kind))?;
        append_code(text, first.saturating_add(i as u64))?;
        text.append(b" ")?;
        append_name(text, column.name)?;
        text.append(b" $end\n")?;
    }
    Ok(())
}

/// What stands before the code of a variable.
fn head_of(kind: ColumnKind) -> &'static [u8] {
    match kind {
        ColumnKind::Truth => b"$var wire 1 ",
        ColumnKind::Whole => b"$var integer 64 ",
        ColumnKind::Long => b"$var real 64 ",
        ColumnKind::Symbol => b"$var string 1 ",
    }
}

/// Appends the code of a variable: its number in digits from `!` to `~`, the lowest first.
fn append_code(text: &mut ByteList, number: u64) -> Result<(), OutOfMemory> {
    let mut rest = number;
    for _ in 0..10 {
        text.push((rest % 94) as u8 + b'!')?;
        rest /= 94;
        if rest == 0 {
            return Ok(());
        }
    }
    Ok(())
}

/// Appends the name of a variable.
fn append_name(text: &mut ByteList, name: &[u8]) -> Result<(), OutOfMemory> {
    for byte in name {
        match *byte {
            b'$' => text.append(b"%24")?,
            b'%' => text.append(b"%25")?,
            b'[' => text.append(b"%5b")?,
            b'\\' => text.append(b"%5c")?,
            b']' => text.append(b"%5d")?,
            other => text.push(other)?,
        }
    }
    Ok(())
}

/// Appends the changes at each moment, and the moment behind the last one, so that a viewer shows that too.
fn append_changes(
    alloc: Global,
    text: &mut ByteList,
    traces: &[ReportTrace<'_>],
    waves: &[Wave<'_>],
) -> Result<(), OutOfMemory> {
    let mut open = places_of(alloc, traces.len())?;
    let longest = longest_of(traces);
    for at in 0..longest {
        append_numbered(alloc, text, b"#", at as u64)?;
        text.append(b"\n")?;
        open = append_moments(alloc, text, traces, waves, &open, at)?;
    }
    append_numbered(alloc, text, b"#", longest as u64)?;
    text.append(b"\n")
}

/// The places of so many.
fn places_of(alloc: Global, count: usize) -> Result<Vec<usize>, OutOfMemory> {
    let mut places = Vec::new(alloc);
    for i in 0..count {
        places.push(i)?;
    }
    Ok(places)
}

/// The most moments of a trace.
fn longest_of(traces: &[ReportTrace<'_>]) -> usize {
    let mut longest = 0;
    for trace in traces {
        longest = trace.moments.len().max(longest);
    }
    longest
}

/// Appends the changes at a moment of the traces at these places, and answers the places of those that have the moment.
fn append_moments(
    alloc: Global,
    text: &mut ByteList,
    traces: &[ReportTrace<'_>],
    waves: &[Wave<'_>],
    open: &[usize],
    at: usize,
) -> Result<Vec<usize>, OutOfMemory> {
    let mut left = Vec::new(alloc);
    for place in open {
        if let (Some(trace), Some(wave)) = (traces.get(*place), waves.get(*place)) {
            if let Some(moment) = trace.moments.get(at) {
                append_moment(text, &trace.moments, at, moment, wave)?;
                left.push(*place)?;
            }
        }
    }
    Ok(left)
}

/// Appends the changes at a moment of a trace.
fn append_moment(
    text: &mut ByteList,
    moments: &[ReportMoment<'_>],
    at: usize,
    moment: &ReportMoment<'_>,
    wave: &Wave<'_>,
) -> Result<(), OutOfMemory> {
    for (i, (line, column)) in moment.lines.iter().zip(wave.columns.iter()).enumerate() {
        if is_changed(moments, at, i, line) {
            if let Some(value) = value_at(moment, i, column.name) {
                append_change(
                    text,
                    column.kind,
                    value,
                    wave.first.saturating_add(i as u64),
                )?;
            }
        }
    }
    Ok(())
}

/// Appends the change of the variable of a number to a value.
fn append_change(
    text: &mut ByteList,
    kind: ColumnKind,
    value: &[u8],
    number: u64,
) -> Result<(), OutOfMemory> {
    match kind {
        ColumnKind::Truth if value == b"TRUE".as_slice() => text.append(b"1")?,
        ColumnKind::Truth => text.append(b"0")?,
        ColumnKind::Whole => append_bits(text, value)?,
        ColumnKind::Long => {
            text.append(b"r")?;
            text.append(value)?;
            text.append(b" ")?;
        }
        ColumnKind::Symbol => append_string(text, value)?,
    }
    append_code(text, number)?;
    text.append(b"\n")
}

/// Appends the bits of a number in two's complement, the highest first, without the zeros before the first one.
fn append_bits(text: &mut ByteList, value: &[u8]) -> Result<(), OutOfMemory> {
    let mut bits = bits_of(whole_of(value).unwrap_or(0));
    let mut is_begun = false;
    text.append(b"b")?;
    for i in 0..64 {
        is_begun = is_begun || bits >= HIGHEST || i == 63;
        if is_begun {
            text.push(if bits >= HIGHEST { b'1' } else { b'0' })?;
        }
        bits = bits % HIGHEST * 2;
    }
    text.append(b" ")
}

/// The bits of a number in two's complement.
fn bits_of(number: i64) -> u64 {
    if number < 0 {
        u64::MAX - (-(number + 1)) as u64
    } else {
        number as u64
    }
}

/// The highest bit of 64.
const HIGHEST: u64 = 9_223_372_036_854_775_808;

/// Appends a string.
fn append_string(text: &mut ByteList, value: &[u8]) -> Result<(), OutOfMemory> {
    text.append(b"s")?;
    for byte in value {
        if *byte == b'\\' {
            text.append(b"\\")?;
        }
        text.push(*byte)?;
    }
    text.append(b" ")
}
