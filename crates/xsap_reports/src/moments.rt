//! The rows of a trace's table: what is shown of each moment, and where faults strike. [`rows_of`] is the main function.
use crate::report::{Line, ReportMoment};
use base_values::OutOfMemory;
use std::alloc::Global;

/// Which values of a moment are shown.
#[derive(Clone, Copy, Debug, PartialEq, Eq)]
pub enum Values {
    All,
    /// Those that differ from the moment before; at the first moment all.
    Changes,
}

/// A row of the table of a trace.
#[derive(Clone, Copy)]
pub(crate) struct Row<'a> {
    pub moment: usize,
    /// Whether it is the first row of its moment.
    pub is_first: bool,
    /// None in the one row of a moment of which nothing is shown.
    pub line: Option<Line<'a>>,
    /// The fault that strikes there.
    pub strikes: Option<&'a [u8]>,
}

/// The rows of a trace, of which each moment has at least one.
pub(crate) fn rows_of<'a>(
    alloc: Global,
    faults: &[&'a [u8]],
    moments: &[ReportMoment<'a>],
    values: Values,
) -> Result<Vec<Row<'a>>, OutOfMemory> {
    let mut rows = Vec::new(alloc);
    for (i, moment) in moments.iter().enumerate() {
        let shown = shown_of(alloc, faults, moments, i, &moment.lines, values)?;
        append_rows(&mut rows, i, &shown)?;
    }
    Ok(rows)
}

/// A line that is shown, and the fault that strikes there.
#[derive(Clone, Copy)]
struct ShownLine<'a> {
    line: Line<'a>,
    strikes: Option<&'a [u8]>,
}

/// What is shown of the moment at a place, which has these lines.
fn shown_of<'a>(
    alloc: Global,
    faults: &[&'a [u8]],
    moments: &[ReportMoment<'a>],
    at: usize,
    lines: &[Line<'a>],
    values: Values,
) -> Result<Vec<ShownLine<'a>>, OutOfMemory> {
    let mut shown = Vec::new(alloc);
    for (i, line) in lines.iter().enumerate() {
        if is_changed(moments, at, i, line) {
            let strikes = strike(faults, line);
            shown.push(ShownLine {
                line: *line,
                strikes,
            })?;
        } else if values == Values::All {
            shown.push(ShownLine {
                line: *line,
                strikes: None,
            })?;
        }
    }
    Ok(shown)
}

/// Appends the rows of a moment.
fn append_rows<'a>(
    rows: &mut Vec<Row<'a>>,
    moment: usize,
    shown: &[ShownLine<'a>],
) -> Result<(), OutOfMemory> {
    if shown.is_empty() {
        rows.push(Row {
            moment,
            is_first: true,
            line: None,
            strikes: None,
        })?;
    }
    for (i, it) in shown.iter().enumerate() {
        rows.push(Row {
            moment,
            is_first: i == 0,
            line: Some(it.line),
            strikes: it.strikes,
        })?;
    }
    Ok(())
}

/// Whether the line at a place of a moment differs from the one at that place of the moment before. Before the first one there is none.
pub(crate) fn is_changed(
    moments: &[ReportMoment<'_>],
    moment: usize,
    place: usize,
    line: &Line<'_>,
) -> bool {
    match line_before(moments, moment, place) {
        Some(old) => old.name != line.name || old.value != line.value,
        None => true,
    }
}

/// The line at a place of the moment before this one.
fn line_before<'a>(moments: &[ReportMoment<'a>], moment: usize, place: usize) -> Option<Line<'a>> {
    let before = moments.get(moment.checked_sub(1)?)?;
    let line = before.lines.get(place)?;
    Some(*line)
}

/// The fault that strikes where a line comes to be: `a.S#mode = S#m` is where `a.S.m` strikes, and `c#event = c#now` is where the
/// common cause `c` occurs.
pub(crate) fn strike<'a>(faults: &[&'a [u8]], line: &Line<'_>) -> Option<&'a [u8]> {
    if let Some(slice) = line.name.strip_suffix(b"#mode") {
        let mode = mode_in(slice, line.value)?;
        return fault_of(faults, slice, mode);
    }
    let cause = line.name.strip_suffix(b"#event")?;
    if line.value.strip_suffix(b"#now")? == cause {
        cause_of(faults, cause)
    } else {
        None
    }
}

/// The mode in the symbol `S#m` of a slice that is named with its instance; none where no fault stands.
fn mode_in<'a>(slice: &[u8], symbol: &'a [u8]) -> Option<&'a [u8]> {
    let mode = symbol.strip_prefix(last_name(slice))?.strip_prefix(b"#")?;
    if mode == b"nominal".as_slice() {
        None
    } else {
        Some(mode)
    }
}

/// The name behind the last dot.
fn last_name(dotted: &[u8]) -> &[u8] {
    match dotted.iter().rposition(|byte| *byte == b'.') {
        Some(dot) => &dotted[dot + 1..],
        None => dotted,
    }
}

/// The fault of a slice and a mode.
fn fault_of<'a>(faults: &[&'a [u8]], slice: &[u8], mode: &[u8]) -> Option<&'a [u8]> {
    for fault in faults {
        if is_fault(fault, slice, mode) {
            return Some(*fault);
        }
    }
    None
}

/// Whether a name is that of the fault of a slice and a mode.
fn is_fault(fault: &[u8], slice: &[u8], mode: &[u8]) -> bool {
    match fault.strip_prefix(slice) {
        Some(rest) => rest.strip_prefix(b".") == Some(mode),
        None => false,
    }
}

/// The cause of this name.
fn cause_of<'a>(faults: &[&'a [u8]], cause: &[u8]) -> Option<&'a [u8]> {
    for fault in faults {
        if *fault == cause {
            return Some(*fault);
        }
    }
    None
}
