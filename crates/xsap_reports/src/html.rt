//! A report as a page in HTML: a summary, a table of the sets, and of each trace a time line and a table. [`html_of`] is the main function.
//!
//! The page is one file that names no other, and runs nothing. Tables have captions and heads, a time line has a title and is described in
//! words, and each name and value stands with references in place of the signs that mean something to HTML.
use crate::endings::append_ending;
use crate::escapes::append_characters;
use crate::lanes::lanes_of;
use crate::moments::{Row, Values, rows_of};
use crate::names::name_at;
use crate::page::{BEGIN, END};
use crate::pieces::{append_numbered, number_of};
use crate::report::{Line, Report, ReportTrace};
use crate::svg::append_picture;
use base_values::{ByteList, OutOfMemory};
use std::alloc::Global;

/// The report as a page. The table of a trace has a row for each value that is shown, with its moment, and the fault that strikes there.
pub fn html_of(alloc: Global, report: &Report<'_>, values: Values) -> Result<Vec<u8>, OutOfMemory> {
    let mut text = ByteList::new(alloc);
    text.append(BEGIN)?;
    append_summary(alloc, &mut text, report)?;
    append_sets(alloc, &mut text, &report.faults, &report.sets)?;
    append_traces(alloc, &mut text, report, values)?;
    text.append(END)?;
    Ok(text.into_vec())
}

/// Appends how many faults and sets there are, and how the analysis ended.
fn append_summary(
    alloc: Global,
    text: &mut ByteList,
    report: &Report<'_>,
) -> Result<(), OutOfMemory> {
    append_numbered(
        alloc,
        text,
        b"<dl>\n<div><dt>Faults</dt><dd>",
        report.faults.len() as u64,
    )?;
    append_numbered(
        alloc,
        text,
        b"</dd></div>\n<div><dt>Minimal cut sets</dt><dd>",
        report.sets.len() as u64,
    )?;
    text.append(b"</dd></div>\n<div><dt>Ending</dt><dd>")?;
    append_ending(alloc, text, report)?;
    text.append(b"</dd></div>\n</dl>\n")
}

/// Appends the table of the sets.
fn append_sets(
    alloc: Global,
    text: &mut ByteList,
    faults: &[&[u8]],
    sets: &[Vec<u32>],
) -> Result<(), OutOfMemory> {
    text.append(
        b"<div class=\"wide\" role=\"region\" aria-label=\"Minimal cut sets\" tabindex=\"0\">\n<table>\n<caption>The sets, each with its \
            faults</caption>\n<thead><tr><th scope=\"col\">Set</th><th scope=\"col\">Size</th><th scope=\"col\">Faults</th></tr></thead>\n\
            <tbody>\n",
    )?;
    for (i, set) in sets.iter().enumerate() {
        append_numbered(alloc, text, b"<tr><th scope=\"row\">", number_of(i))?;
        append_numbered(alloc, text, b"</th><td>", set.len() as u64)?;
        text.append(b"</td><td>")?;
        append_set(text, faults, set)?;
        text.append(b"</td></tr>\n")?;
    }
    text.append(b"</tbody>\n</table>\n</div>\n")
}

/// Appends the names of a set.
fn append_set(text: &mut ByteList, faults: &[&[u8]], set: &[u32]) -> Result<(), OutOfMemory> {
    if set.is_empty() {
        return text.append(b"no fault");
    }
    for (i, number) in set.iter().enumerate() {
        if i > 0 {
            text.append(b" ")?;
        }
        append_code(text, name_at(faults, *number))?;
    }
    Ok(())
}

/// Appends a name or a value.
fn append_code(text: &mut ByteList, bytes: &[u8]) -> Result<(), OutOfMemory> {
    text.append(b"<code>")?;
    append_characters(text, bytes)?;
    text.append(b"</code>")
}

/// Appends a section for each trace.
fn append_traces(
    alloc: Global,
    text: &mut ByteList,
    report: &Report<'_>,
    values: Values,
) -> Result<(), OutOfMemory> {
    for (i, (trace, set)) in report.traces.iter().zip(report.sets.iter()).enumerate() {
        let number = number_of(i);
        append_numbered(alloc, text, b"<section aria-labelledby=\"trace-", number)?;
        append_numbered(alloc, text, b"\">\n<h2 id=\"trace-", number)?;
        append_numbered(alloc, text, b"\">Trace of set ", number)?;
        text.append(b": ")?;
        append_set(text, &report.faults, set)?;
        text.append(b"</h2>\n")?;
        append_trace(alloc, text, &report.faults, trace, number, values)?;
        text.append(b"</section>\n")?;
    }
    Ok(())
}

/// Appends the time line and the table of a trace.
fn append_trace(
    alloc: Global,
    text: &mut ByteList,
    faults: &[&[u8]],
    trace: &ReportTrace<'_>,
    number: u64,
    values: Values,
) -> Result<(), OutOfMemory> {
    let lanes = lanes_of(alloc, faults, &trace.moments)?;
    append_region(alloc, text, b"Time line of set ", number)?;
    append_picture(alloc, text, &lanes, trace.moments.len(), number)?;
    text.append(b"</div>\n")?;
    let rows = rows_of(alloc, faults, &trace.moments, values)?;
    append_region(alloc, text, b"Values of set ", number)?;
    append_caption(alloc, text, number, values)?;
    text.append(
        b"<thead><tr><th scope=\"col\">Moment</th><th scope=\"col\">Variable</th><th scope=\"col\">Value</th><th \
            scope=\"col\">Strikes</th></tr></thead>\n<tbody>\n",
    )?;
    append_rows(alloc, text, &rows)?;
    text.append(b"</tbody>\n</table>\n</div>\n")
}

/// Appends the begin of a part that may be wider than the page.
fn append_region(
    alloc: Global,
    text: &mut ByteList,
    name: &[u8],
    number: u64,
) -> Result<(), OutOfMemory> {
    text.append(b"<div class=\"wide\" role=\"region\" tabindex=\"0\" aria-label=\"")?;
    append_numbered(alloc, text, name, number)?;
    text.append(b"\">\n")
}

/// Appends the begin of the table of a trace.
fn append_caption(
    alloc: Global,
    text: &mut ByteList,
    number: u64,
    values: Values,
) -> Result<(), OutOfMemory> {
    let head: &[u8] = match values {
        Values::All => b"<table>\n<caption>All values in the trace of set ",
        Values::Changes => b"<table>\n<caption>What changes in the trace of set ",
    };
    append_numbered(alloc, text, head, number)?;
    text.append(b"</caption>\n")
}

/// Appends rows. The first one of a moment has a line above it.
fn append_rows(alloc: Global, text: &mut ByteList, rows: &[Row<'_>]) -> Result<(), OutOfMemory> {
    for row in rows {
        let head: &[u8] = if row.is_first {
            b"<tr class=\"first\"><td>"
        } else {
            b"<tr><td>"
        };
        append_numbered(alloc, text, head, row.moment as u64)?;
        match row.line {
            Some(line) => append_line(text, &line, row.strikes)?,
            None => text.append(b"</td><td>(nothing changes)</td><td></td><td></td></tr>\n")?,
        }
    }
    Ok(())
}

/// Appends the cells of a variable, its value and the fault that strikes, and the end of the row.
fn append_line(
    text: &mut ByteList,
    line: &Line<'_>,
    strikes: Option<&[u8]>,
) -> Result<(), OutOfMemory> {
    text.append(b"</td><th scope=\"row\">")?;
    append_code(text, line.name)?;
    text.append(b"</th><td>")?;
    append_code(text, line.value)?;
    match strikes {
        Some(fault) => {
            text.append(b"</td><td class=\"strikes\">")?;
            append_code(text, fault)?;
        }
        None => text.append(b"</td><td>")?,
    }
    text.append(b"</td></tr>\n")
}
