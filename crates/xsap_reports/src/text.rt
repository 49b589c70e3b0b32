//! A report as plain text: a table of the sets, how the analysis ended, and a table of each trace. [`text_of`] is the main function.
use crate::endings::append_ending;
use crate::moments::{Row, Values, rows_of};
use crate::names::append_set;
use crate::report::{Line, Report, ReportTrace};
use base_values::{ByteList, OutOfMemory};
use std::alloc::Global;

/// The report as plain text, in tables whose columns are two spaces apart or more. The table of a trace has a row for each value that
/// is shown, with the moment at the first of them, and the fault that strikes there.
pub fn text_of(alloc: Global, report: &Report<'_>, values: Values) -> Result<Vec<u8>, OutOfMemory> {
    let mut text = ByteList::new(alloc);
    append_sets(alloc, &mut text, &report.faults, &report.sets)?;
    text.append(b"\n")?;
    append_ending(alloc, &mut text, report)?;
    text.append(b"\n")?;
    append_traces(alloc, &mut text, report, values)?;
    Ok(text.into_vec())
}

/// Appends the table of the sets.
fn append_sets(
    alloc: Global,
    text: &mut ByteList,
    faults: &[&[u8]],
    sets: &[Vec<u32>],
) -> Result<(), OutOfMemory> {
    text.append(b"set    size   faults\n")?;
    for (i, set) in sets.iter().enumerate() {
        append_number(alloc, text, i + 1)?;
        append_number(alloc, text, set.len())?;
        append_set(text, faults, set)?;
        text.append(b"\n")?;
    }
    Ok(())
}

/// Appends the cell of a number.
fn append_number(alloc: Global, text: &mut ByteList, number: usize) -> Result<(), OutOfMemory> {
    let digits = format!(in alloc; "{number}")?;
    append_cell(text, digits.as_bytes(), 5)
}

/// Appends a cell that others follow, as wide as this or wider.
fn append_cell(text: &mut ByteList, bytes: &[u8], width: usize) -> Result<(), OutOfMemory> {
    text.append(bytes)?;
    append_spaces(text, width.saturating_sub(bytes.len()))?;
    text.append(b"  ")
}

/// Appends so many spaces.
fn append_spaces(text: &mut ByteList, count: usize) -> Result<(), OutOfMemory> {
    for _ in 0..count {
        text.append(b" ")?;
    }
    Ok(())
}

/// Appends the table of each trace, below the names of its set.
fn append_traces(
    alloc: Global,
    text: &mut ByteList,
    report: &Report<'_>,
    values: Values,
) -> Result<(), OutOfMemory> {
    for (i, (trace, set)) in report.traces.iter().zip(report.sets.iter()).enumerate() {
        text.append(b"\ntrace of set ")?;
        text.append_number(alloc, (i + 1) as u64)?;
        text.append(b": ")?;
        append_set(text, &report.faults, set)?;
        text.append(b"\n\n")?;
        append_trace(alloc, text, &report.faults, trace, values)?;
    }
    Ok(())
}

/// Appends the table of a trace.
fn append_trace(
    alloc: Global,
    text: &mut ByteList,
    faults: &[&[u8]],
    trace: &ReportTrace<'_>,
    values: Values,
) -> Result<(), OutOfMemory> {
    let rows = rows_of(alloc, faults, &trace.moments, values)?;
    let widths = widths_of(&rows);
    text.append(b"moment  ")?;
    append_cell(text, b"variable", widths.name)?;
    append_cell(text, b"value", widths.value)?;
    text.append(b"strikes\n")?;
    append_rows(alloc, text, &rows, widths)
}

/// How wide the columns of variables and values are.
#[derive(Clone, Copy)]
struct Widths {
    name: usize,
    value: usize,
}

/// The widths of columns that have room for the heads and for each row.
fn widths_of(rows: &[Row<'_>]) -> Widths {
    let mut widths = Widths { name: 8, value: 5 };
    for row in rows {
        if let Some(line) = row.line {
            widths = Widths {
                name: widths.name.max(line.name.len()),
                value: widths.value.max(line.value.len()),
            };
        }
    }
    widths
}

/// Appends rows.
fn append_rows(
    alloc: Global,
    text: &mut ByteList,
    rows: &[Row<'_>],
    widths: Widths,
) -> Result<(), OutOfMemory> {
    for row in rows {
        append_moment(alloc, text, row)?;
        match row.line {
            Some(line) => append_line(text, &line, row.strikes, widths)?,
            None => text.append(b"(nothing changes)")?,
        }
        text.append(b"\n")?;
    }
    Ok(())
}

/// Appends the cell of a row's moment, which is empty but for the first row.
fn append_moment(alloc: Global, text: &mut ByteList, row: &Row<'_>) -> Result<(), OutOfMemory> {
    let number = row.moment;
    if row.is_first {
        let digits = format!(in alloc; "{number}")?;
        append_cell(text, digits.as_bytes(), 6)
    } else {
        append_cell(text, b"", 6)
    }
}

/// Appends the cells of a variable, its value and the fault that strikes.
fn append_line(
    text: &mut ByteList,
    line: &Line<'_>,
    strikes: Option<&[u8]>,
    widths: Widths,
) -> Result<(), OutOfMemory> {
    append_cell(text, line.name, widths.name)?;
    match strikes {
        Some(fault) => {
            append_cell(text, line.value, widths.value)?;
            text.append(fault)
        }
        None => text.append(line.value),
    }
}
