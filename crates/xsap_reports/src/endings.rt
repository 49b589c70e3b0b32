//! How an analysis ended, in plain words.
use crate::report::{Report, ReportEnding};
use base_values::{ByteList, OutOfMemory};
use std::alloc::Global;

/// Appends how an analysis ended, in one line without its line feed.
pub(crate) fn append_ending(
    alloc: Global,
    text: &mut ByteList,
    report: &Report<'_>,
) -> Result<(), OutOfMemory> {
    append_first(text, report.has_first)?;
    append_reach(alloc, text, report.ending)?;
    append_size(alloc, text, report.size)
}

/// Appends that there is no trace, where that is so.
fn append_first(text: &mut ByteList, has_first: bool) -> Result<(), OutOfMemory> {
    if has_first {
        Ok(())
    } else {
        text.append(b"no first moment, so the model has no trace at all; ")
    }
}

/// Appends of which traces the sets are all.
fn append_reach(
    alloc: Global,
    text: &mut ByteList,
    ending: ReportEnding,
) -> Result<(), OutOfMemory> {
    match ending {
        ReportEnding::Complete => {
            text.append(b"complete: no other minimal set exists, in traces of any length")
        }
        ReportEnding::Bounded { steps, .. } => {
            text.append(b"bounded: no other minimal set exists in traces of at most ")?;
            text.append_number(alloc, u64::from(steps))?;
            text.append(b" steps; longer ones were not searched")
        }
    }
}

/// Appends of how many faults the sets are, where that is limited.
fn append_size(alloc: Global, text: &mut ByteList, size: Option<u32>) -> Result<(), OutOfMemory> {
    match size {
        Some(size) => {
            text.append(b"; only sets of at most ")?;
            text.append_number(alloc, u64::from(size))?;
            text.append(b" faults were searched")
        }
        None => Ok(()),
    }
}
