//! A report as Markdown: a table of the sets, how the analysis ended, and a table of each trace. [`markdown_of`] is the main function.
//!
//! Tables are those of GitHub's Markdown. A name or a value is a code span, so that no byte of it means anything else; its fence is
//! longer than any run of backticks in it, and in a table a `|` has a backslash before it, which the table takes away.
use crate::endings::append_ending;
use crate::moments::{Row, Values, rows_of};
use crate::names::name_at;
use crate::report::{Line, Report, ReportTrace};
use base_values::{ByteList, OutOfMemory};
use std::alloc::Global;

/// The report as Markdown. The table of a trace has a row for each value that is shown, with its moment, and the fault that strikes
/// there.
pub fn markdown_of(
    alloc: Global,
    report: &Report<'_>,
    values: Values,
) -> Result<Vec<u8>, OutOfMemory> {
    let mut text = ByteList::new(alloc);
    append_sets(alloc, &mut text, &report.faults, &report.sets)?;
    text.append(b"\n")?;
    append_ending(alloc, &mut text, report)?;
    text.append(b"\n")?;
    append_traces(alloc, &mut text, report, values)?;
    Ok(text.into_vec())
}

/// Appends the table of the sets.
fn append_sets(
    alloc: Global,
    text: &mut ByteList,
    faults: &[&[u8]],
    sets: &[Vec<u32>],
) -> Result<(), OutOfMemory> {
    text.append(b"| Set | Size | Faults |\n|---|---|---|\n")?;
    for (i, set) in sets.iter().enumerate() {
        append_number(alloc, text, i + 1)?;
        append_number(alloc, text, set.len())?;
        text.append(b"| ")?;
        append_set(text, faults, set, IN_TABLE)?;
        text.append(b" |\n")?;
    }
    Ok(())
}

/// Appends the cell of a number.
fn append_number(alloc: Global, text: &mut ByteList, number: usize) -> Result<(), OutOfMemory> {
    text.append(b"| ")?;
    text.append_number(alloc, number as u64)?;
    text.append(b" ")
}

/// What stands before a `|` of a name or a value.
static IN_TABLE: &[u8] = b"\\";

static OUTSIDE: &[u8] = b"";

/// Appends the names of a set.
fn append_set(
    text: &mut ByteList,
    faults: &[&[u8]],
    set: &[u32],
    before_bar: &[u8],
) -> Result<(), OutOfMemory> {
    if set.is_empty() {
        text.append(b"no fault")
    } else {
        append_names(text, faults, set, before_bar)
    }
}

/// Appends names with a space between them.
fn append_names(
    text: &mut ByteList,
    faults: &[&[u8]],
    set: &[u32],
    before_bar: &[u8],
) -> Result<(), OutOfMemory> {
    for (i, number) in set.iter().enumerate() {
        if i > 0 {
            text.append(b" ")?;
        }
        append_code(text, name_at(faults, *number), before_bar)?;
    }
    Ok(())
}

/// Appends bytes as a code span. A space stands in it beside a backtick.
fn append_code(text: &mut ByteList, bytes: &[u8], before_bar: &[u8]) -> Result<(), OutOfMemory> {
    let longest = longest_run(bytes);
    append_fence(text, longest)?;
    if longest > 0 {
        text.append(b" ")?;
    }
    append_escaped(text, bytes, before_bar)?;
    if longest > 0 {
        text.append(b" ")?;
    }
    append_fence(text, longest)
}

/// How many backticks stand one after the other, at most.
fn longest_run(bytes: &[u8]) -> usize {
    let mut longest: usize = 0;
    let mut run: usize = 0;
    for byte in bytes {
        run = if *byte == b'`' {
            run.saturating_add(1)
        } else {
            0
        };
        longest = longest.max(run);
    }
    longest
}

/// Appends one backtick more than so many.
fn append_fence(text: &mut ByteList, longest: usize) -> Result<(), OutOfMemory> {
    for _ in 0..longest {
        text.append(b"`")?;
    }
    text.append(b"`")
}

/// Appends bytes with this before each `|`.
fn append_escaped(text: &mut ByteList, bytes: &[u8], before_bar: &[u8]) -> Result<(), OutOfMemory> {
    for byte in bytes {
        if *byte == b'|' {
            text.append(before_bar)?;
        }
        text.push(*byte)?;
    }
    Ok(())
}

/// Appends the table of each trace, below the names of its set.
fn append_traces(
    alloc: Global,
    text: &mut ByteList,
    report: &Report<'_>,
    values: Values,
) -> Result<(), OutOfMemory> {
    for (i, (trace, set)) in report.traces.iter().zip(report.sets.iter()).enumerate() {
        text.append(b"\nTrace of set ")?;
        text.append_number(alloc, (i + 1) as u64)?;
        text.append(b": ")?;
        append_set(text, &report.faults, set, OUTSIDE)?;
        text.append(b"\n\n")?;
        append_trace(alloc, text, &report.faults, trace, values)?;
    }
    Ok(())
}

/// Appends the table of a trace.
fn append_trace(
    alloc: Global,
    text: &mut ByteList,
    faults: &[&[u8]],
    trace: &ReportTrace<'_>,
    values: Values,
) -> Result<(), OutOfMemory> {
    let rows = rows_of(alloc, faults, &trace.moments, values)?;
    text.append(b"| Moment | Variable | Value | Strikes |\n|---|---|---|---|\n")?;
    append_rows(alloc, text, &rows)
}

/// Appends rows.
fn append_rows(alloc: Global, text: &mut ByteList, rows: &[Row<'_>]) -> Result<(), OutOfMemory> {
    for row in rows {
        append_number(alloc, text, row.moment)?;
        match row.line {
            Some(line) => append_line(text, &line, row.strikes)?,
            None => text.append(b"| (nothing changes) | | |\n")?,
        }
    }
    Ok(())
}

/// Appends the cells of a variable, its value and the fault that strikes, and the end of the row.
fn append_line(
    text: &mut ByteList,
    line: &Line<'_>,
    strikes: Option<&[u8]>,
) -> Result<(), OutOfMemory> {
    text.append(b"| ")?;
    append_code(text, line.name, IN_TABLE)?;
    text.append(b" | ")?;
    append_code(text, line.value, IN_TABLE)?;
    match strikes {
        Some(fault) => {
            text.append(b" | ")?;
            append_code(text, fault, IN_TABLE)?;
            text.append(b" |\n")
        }
        None => text.append(b" | |\n"),
    }
}
