//! Why a text is no report: the line at which it stops being one, and what was expected there.
use std::alloc::{AllocError, AllocFailed};

/// Why a report could not be read.
#[derive(Clone, Copy, Debug, PartialEq, Eq)]
pub enum ReportFault {
    OutOfMemory,
    At(WrongLine),
}

/// A line, from 1, and what was expected there. A text that was cut ends with a line that is empty or has no line feed; it is that line.
#[derive(Clone, Copy, Debug, PartialEq, Eq)]
pub struct WrongLine {
    pub line: usize,
    pub expected: Expected,
}

/// What was expected at a line.
#[derive(Clone, Copy, Debug, PartialEq, Eq)]
pub enum Expected {
    FaultCount,
    Fault,
    SetCount,
    Set,
    Trace,
    Moment,
    Ending,
    Size,
    End,
}

impl Expected {
    /// What was expected, in words.
    pub fn text(self) -> &'static str {
        match self {
            Expected::FaultCount => "`faults N`",
            Expected::Fault => "`fault i NAME`, with the next number and a name",
            Expected::SetCount => "`sets N`",
            Expected::Set => "`set` and numbers of listed faults that rise",
            Expected::Trace => "`trace i` with the next number, or more of the trace before",
            Expected::Moment => "`moment i` with the next number",
            Expected::Ending => "`complete` or `bounded K bits B`, or more of the last trace",
            Expected::Size => "`size N` below the number of faults, or the end",
            Expected::End => "the end",
        }
    }
}

/// Where a reader stops: so many bytes are left at the beginning of the line.
#[derive(Clone, Copy)]
pub(crate) enum ReportStop {
    OutOfMemory,
    At { left: usize, expected: Expected },
}

impl From<AllocError> for ReportStop {
    fn from(_refused: AllocError) -> ReportStop {
        ReportStop::OutOfMemory
    }
}

impl<T: Drop> From<AllocFailed<T>> for ReportStop {
    fn from(_refused: AllocFailed<T>) -> ReportStop {
        ReportStop::OutOfMemory
    }
}
