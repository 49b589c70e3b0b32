//! Reads the traces of a report.
//!
//! The main function is [`read_traces`]. A moment ends before the first line that is no value, and a trace before the first line that
//! is no next moment.
ghost use Rattle.std.specs.Prelude.{◌≡◌, ◌<◌, ◌≤◌, length, All, IfOk, IfSome};
ghost use Rattle.xsap_reports.specs.Reports.{HasWords, IsMomentOfWords, IsTraceOfWords};

use crate::fault::{Expected, ReportStop};
use crate::report::{Line, ReportMoment, ReportTrace};
use crate::words::{first_word, is_word, number_behind, stop, take_line};
use base_values::first_line;
use std::alloc::Global;

/// So many traces, numbered from 1, and the bytes behind them.
pub(crate) fn read_traces(
    alloc: Global,
    bytes: &[u8],
    count: usize,
) -> Result<(Vec<ReportTrace<'_>>, &[u8]), ReportStop>
    ensures count { IfOk result (λ p. length p.0.items ≡ count) }
    ensures words { IfOk result (λ p. All IsTraceOfWords p.0.items) }
{
    let mut traces = Vec::new(alloc);
    let mut rest = bytes;
    for i in 0..count {
        let (trace, after) = read_trace(alloc, rest, i + 1)?;
        traces.push(trace)?;
        rest = after;
    }
    Ok((traces, rest))
}

/// The trace of this number, and the bytes behind it.
fn read_trace(
    alloc: Global,
    bytes: &[u8],
    number: usize,
) -> Result<(ReportTrace<'_>, &[u8]), ReportStop>
    ensures { IfOk result (λ p. IsTraceOfWords p.0) }
{
    let (line, after) = take_line(bytes, Expected::Trace)?;
    match number_behind(line, b"trace ") {
        Some(found) if found as usize == number => read_moments(alloc, after),
        _ => Err(stop(bytes, Expected::Trace)),
    }
}

/// The moments at the beginning, at least one, and the bytes behind them.
fn read_moments(alloc: Global, bytes: &[u8]) -> Result<(ReportTrace<'_>, &[u8]), ReportStop>
    ensures { IfOk result (λ p. IsTraceOfWords p.0) }
{
    let mut moments = Vec::new(alloc);
    let mut rest = bytes;
    while let Some(after) = behind_head(rest, moments.len()) {
        let (moment, left) = read_moment(alloc, after)?;
        moments.push(moment)?;
        rest = left;
    }
    if moments.is_empty() {
        return Err(stop(bytes, Expected::Moment));
    }
    Ok((ReportTrace { moments }, rest))
}

/// The bytes behind the line `moment i`, where that is the first line.
fn behind_head(bytes: &[u8], number: usize) -> Option<&[u8]>
    ensures { IfSome result (λ after. length after.now < length bytes.now) }
{
    let (line, after) = take_line(bytes, Expected::Moment).ok()?;
    if number_behind(line, b"moment ")? as usize == number {
        Some(after)
    } else {
        None
    }
}

/// The values at the beginning, and the bytes behind them.
fn read_moment(alloc: Global, bytes: &[u8]) -> Result<(ReportMoment<'_>, &[u8]), ReportStop>
    ensures behind { IfOk result (λ p. length p.1.now ≤ length bytes.now) }
    ensures words { IfOk result (λ p. IsMomentOfWords p.0) }
{
    let mut lines = Vec::new(alloc);
    let mut rest = bytes;
    while let Some((line, after)) = next_value(rest) {
        lines.push(line)?;
        rest = after;
    }
    Ok((ReportMoment { lines }, rest))
}

/// The value of the first line, where it is one, and the bytes behind it.
fn next_value(bytes: &[u8]) -> Option<(Line<'_>, &[u8])>
    ensures behind { IfSome result (λ p. length p.1.now < length bytes.now) }
    ensures words { IfSome result (λ p. HasWords p.0) }
{
    let (line, after) = take_line(bytes, Expected::Trace).ok()?;
    Some((value_in(line)?, after))
}

/// The name and the value of `name = value`.
fn value_in(line: &[u8]) -> Option<Line<'_>>
    ensures { IfSome result HasWords }
{
    let (name, rest) = first_word(line);
    let value = rest.strip_prefix(b"= ")?;
    if is_word(name) && is_word(value) {
        Some(Line { name, value })
    } else {
        None
    }
}
