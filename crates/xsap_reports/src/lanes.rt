//! The lanes of a trace's time line: a variable with the stretches in which it keeps a value, and the fault that has struck there.
//! [`lanes_of`] is the main function.
use crate::columns::{ColumnKind, Stretch, columns_of, stretches_of, whole_of};
use crate::moments::strike;
use crate::report::{Line, ReportMoment};
use base_values::OutOfMemory;
use std::alloc::Global;

/// A variable and its bars, which follow one another from the first moment to the last.
#[derive(Drop)]
pub(crate) struct Lane<'a> {
    pub name: &'a [u8],
    pub kind: ColumnKind,
    pub bars: Vec<Bar<'a>>,
    /// Whether a fault strikes in it.
    pub is_struck: bool,
}

/// A stretch, and the fault that strikes at its begin and stays to its end.
#[derive(Clone, Copy)]
pub(crate) struct Bar<'a> {
    pub stretch: Stretch<'a>,
    pub fault: Option<&'a [u8]>,
    /// How high the value is, from 0 up to [`HIGH`].
    pub height: u64,
}

/// The height of the highest value of a lane.
pub(crate) const HIGH: u64 = 12;

/// The lanes of a trace, by the places of their variables.
pub(crate) fn lanes_of<'a>(
    alloc: Global,
    faults: &[&'a [u8]],
    moments: &[ReportMoment<'a>],
) -> Result<Vec<Lane<'a>>, OutOfMemory> {
    let columns = columns_of(alloc, moments)?;
    let mut lanes = Vec::new(alloc);
    for (i, column) in columns.iter().enumerate() {
        let stretches = stretches_of(alloc, moments, i, column.name)?;
        let bars = bars_of(alloc, faults, column.name, column.kind, &stretches)?;
        let is_struck = has_fault(&bars);
        lanes.push(Lane {
            name: column.name,
            kind: column.kind,
            bars,
            is_struck,
        })?;
    }
    Ok(lanes)
}

/// Whether a fault strikes in a bar.
fn has_fault(bars: &[Bar<'_>]) -> bool {
    bars.iter().any(|bar| bar.fault.is_some())
}

/// The bars of a variable with these stretches.
fn bars_of<'a>(
    alloc: Global,
    faults: &[&'a [u8]],
    name: &'a [u8],
    kind: ColumnKind,
    stretches: &[Stretch<'a>],
) -> Result<Vec<Bar<'a>>, OutOfMemory> {
    let range = range_of(stretches);
    let mut bars = Vec::new(alloc);
    for stretch in stretches {
        let fault = match stretch.value {
            Some(value) => strike(faults, &Line { name, value }),
            None => None,
        };
        bars.push(Bar {
            stretch: *stretch,
            fault,
            height: height_of(kind, stretch, range),
        })?;
    }
    Ok(bars)
}

/// The lowest number and the highest one.
#[derive(Clone, Copy)]
struct Range {
    low: i64,
    high: i64,
}

/// The range of the numbers among values.
fn range_of(stretches: &[Stretch<'_>]) -> Range {
    let mut range = Range {
        low: i64::MAX,
        high: i64::MIN,
    };
    for stretch in stretches {
        if let Some(number) = number_of(stretch) {
            range = Range {
                low: number.min(range.low),
                high: number.max(range.high),
            };
        }
    }
    range
}

/// The number of a stretch, where its value is one.
fn number_of(stretch: &Stretch<'_>) -> Option<i64> {
    whole_of(stretch.value?)
}

/// How high the value of a stretch is. The only number of a lane is half high.
fn height_of(kind: ColumnKind, stretch: &Stretch<'_>, range: Range) -> u64 {
    match kind {
        ColumnKind::Truth if stretch.value == Some(b"TRUE".as_slice()) => HIGH,
        ColumnKind::Truth => 0,
        _ => match number_of(stretch) {
            Some(number) => height_in(number, range),
            None => 0,
        },
    }
}

/// How high a number is in a range.
fn height_in(number: i64, range: Range) -> u64 {
    let whole = range.high.abs_diff(range.low);
    let part = number.abs_diff(range.low);
    if range.high <= range.low {
        return HIGH / 2;
    }
    let slice = whole / HIGH;
    if slice == 0 {
        part.saturating_mul(HIGH) / whole.max(1)
    } else {
        (part / slice).min(HIGH)
    }
}
