//! Reads a report in one pass. [`read`] is the main function; the parts are read in their order, each from where the one before ended.
//!
//! A reader of a part answers it with the bytes behind it, or the stop: how many bytes were left at the line that it could not take. The
//! number of that line is counted once, at the end.
ghost use Rattle.std.specs.Prelude.{◌≡◌, ◌<◌, ◌≤◌, ◌+◌, length, ◌^◌, ℕ, List, count_by, true, IfOk, IfSome, All};
ghost use Rattle.xsap_reports.specs.Reports.{is_word, is_feed, IsListed, IsTraceOfWords};

use crate::fault::{Expected, ReportFault, ReportStop, WrongLine};
use crate::report::{Report, ReportEnding};
use crate::traces::read_traces;
use crate::words::{
    first_word, is_word, number_behind, number_in, rising_numbers, stop, take_line,
};
use std::alloc::Global;

/// The report that this text is. The text is refused where any byte of it is not as a report has it.
pub fn read(alloc: Global, bytes: &[u8]) -> Result<Report<'_>, ReportFault>
    // Each name is some printed ASCII characters without a space.
    ensures names { IfOk result (λ report. All (λ name. is_word name.now ≡ true) report.faults.items) }
    // Each set has numbers of listed faults alone.
    ensures sets { IfOk result (λ report. All (λ set. All (IsListed (length report.faults.items)) set.items) report.sets.items) }
    ensures traces { IfOk result (λ report. length report.traces.items ≡ length report.sets.items) }
    // So are the names and the values of variables.
    ensures words { IfOk result (λ report. All IsTraceOfWords report.traces.items) }
    // The line of a fault is one of the text's, or the one behind its last line feed.
    ensures line { (fault : WrongLine) → result ≡ Err (ReportFault.At fault) →
        (0 < fault.line) × (fault.line ≤ count_by is_feed bytes.now + 1) }
{
    match read_parts(alloc, bytes) {
        Ok(report) => Ok(report),
        Err(ReportStop::OutOfMemory) => Err(ReportFault::OutOfMemory),
        Err(ReportStop::At { left, expected }) => Err(ReportFault::At(WrongLine {
            line: line_at(bytes, left),
            expected,
        })),
    }
}

/// The line, from 1, at which so many bytes are left.
fn line_at(bytes: &[u8], left: usize) -> usize
    ensures some { 0 < result }
    ensures there { result ≤ count_by is_feed bytes.now + 1 }
{
    let (before, _) = bytes.split_at(bytes.len().saturating_sub(left));
    feeds(before) + 1
}

/// How many line feeds these are.
fn feeds(bytes: &[u8]) -> usize
    ensures value { result ≡ count_by is_feed bytes.now }
    ensures bound { result ≤ length bytes.now }
{
    bytes.iter().filter(|byte| **byte == b'\n').count()
}

/// The parts of a report in their order.
fn read_parts(alloc: Global, bytes: &[u8]) -> Result<Report<'_>, ReportStop>
    ensures names { IfOk result (λ report. All (λ name. is_word name.now ≡ true) report.faults.items) }
    ensures sets { IfOk result (λ report. All (λ set. All (IsListed (length report.faults.items)) set.items) report.sets.items) }
    ensures traces { IfOk result (λ report. length report.traces.items ≡ length report.sets.items) }
    ensures words { IfOk result (λ report. All IsTraceOfWords report.traces.items) }
{
    let (faults, rest) = read_faults(alloc, bytes)?;
    let (sets, rest) = read_sets(alloc, rest, faults.len())?;
    let (traces, rest) = read_traces(alloc, rest, sets.len())?;
    let (has_first, rest) = read_first(rest);
    let (ending, rest) = read_ending(rest)?;
    let size = read_size(rest, faults.len())?;
    Ok(Report {
        faults,
        sets,
        traces,
        has_first,
        ending,
        size,
    })
}

/// The names of the faults, and the bytes behind their lines.
fn read_faults(alloc: Global, bytes: &[u8]) -> Result<(Vec<&[u8]>, &[u8]), ReportStop>
    ensures { IfOk result (λ p. All (λ name. is_word name.now ≡ true) p.0.items) }
{
    let (line, after) = take_line(bytes, Expected::FaultCount)?;
    let Some(count) = number_behind(line, b"faults ") else {
        return Err(stop(bytes, Expected::FaultCount));
    };
    let mut names = Vec::new(alloc);
    let mut rest = after;
    for i in 0..count {
        let (line, behind) = take_line(rest, Expected::Fault)?;
        let Some(name) = name_in(line, i) else {
            return Err(stop(rest, Expected::Fault));
        };
        names.push(name)?;
        rest = behind;
    }
    Ok((names, rest))
}

/// The name in the line of the fault after so many others.
fn name_in(line: &[u8], earlier: u32) -> Option<&[u8]>
    requires { earlier + 1 < 2 ^ 32 }
    ensures { IfSome result (λ name. is_word name.now ≡ true) }
{
    let (digits, name) = first_word(line.strip_prefix(b"fault ")?);
    if number_in(digits)? == earlier + 1 && is_word(name) {
        Some(name)
    } else {
        None
    }
}

/// The sets of so many faults, and the bytes behind their lines.
fn read_sets(alloc: Global, bytes: &[u8], many: usize) -> Result<(Vec<Vec<u32>>, &[u8]), ReportStop>
    ensures { IfOk result (λ p. All (λ set. All (IsListed many) set.items) p.0.items) }
{
    let (line, after) = take_line(bytes, Expected::SetCount)?;
    let Some(count) = number_behind(line, b"sets ") else {
        return Err(stop(bytes, Expected::SetCount));
    };
    let mut sets = Vec::new(alloc);
    let mut rest = after;
    for _ in 0..count {
        let (line, behind) = take_line(rest, Expected::Set)?;
        let Some(set) = set_in(alloc, line, many)? else {
            return Err(stop(rest, Expected::Set));
        };
        sets.push(set)?;
        rest = behind;
    }
    Ok((sets, rest))
}

/// The set in a line.
fn set_in(alloc: Global, line: &[u8], many: usize) -> Result<Option<Vec<u32>>, ReportStop>
    ensures { IfOk result (λ read. IfSome read (λ numbers. All (IsListed many) numbers.items)) }
{
    match line.strip_prefix(b"set") {
        Some(text) => Ok(rising_numbers(alloc, text, many)?),
        None => Ok(None),
    }
}

/// Whether there is a first moment, and the bytes behind the line that says where there is none.
fn read_first(bytes: &[u8]) -> (bool, &[u8]) {
    match bytes.strip_prefix(b"no first moment\n") {
        Some(rest) => (false, rest),
        None => (true, bytes),
    }
}

/// How the analysis ended, and the bytes behind that line.
fn read_ending(bytes: &[u8]) -> Result<(ReportEnding, &[u8]), ReportStop> {
    let (line, after) = take_line(bytes, Expected::Ending)?;
    match ending_in(line) {
        Some(ending) => Ok((ending, after)),
        None => Err(stop(bytes, Expected::Ending)),
    }
}

/// The ending in a line.
fn ending_in(line: &[u8]) -> Option<ReportEnding> {
    if line == b"complete".as_slice() {
        return Some(ReportEnding::Complete);
    }
    let (steps, rest) = first_word(line.strip_prefix(b"bounded ")?);
    Some(ReportEnding::Bounded {
        steps: number_in(steps)?,
        bits: number_behind(rest, b"bits ")?,
    })
}

/// The size below the number of faults, where the text has one. Nothing stands behind it.
fn read_size(bytes: &[u8], many: usize) -> Result<Option<u32>, ReportStop> {
    if bytes.is_empty() {
        return Ok(None);
    }
    let (line, after) = take_line(bytes, Expected::Size)?;
    match number_behind(line, b"size ") {
        Some(size) if (size as usize) < many => {
            if after.is_empty() {
                Ok(Some(size))
            } else {
                Err(stop(after, Expected::End))
            }
        }
        _ => Err(stop(bytes, Expected::Size)),
    }
}
