//! The variables of a trace, each with the kind of its values and the stretches of moments in which it keeps one.
//!
//! The variables are those of the first moment, by their places: in what an analysis prints each moment has the same ones. A moment that
//! has another name at a place has no value of the variable there. The main functions are [`columns_of`] and [`stretches_of`].
use crate::report::ReportMoment;
use base_values::OutOfMemory;
use std::alloc::Global;

/// What the values of a variable are.
#[derive(Clone, Copy, Debug, PartialEq, Eq)]
pub(crate) enum ColumnKind {
    /// `TRUE` and `FALSE`.
    Truth,
    /// Whole numbers of 64 bits with a sign.
    Whole,
    /// Whole numbers, some of them longer.
    Long,
    Symbol,
}

/// A variable of a trace.
#[derive(Clone, Copy)]
pub(crate) struct TraceColumn<'a> {
    pub name: &'a [u8],
    pub kind: ColumnKind,
}

/// Moments in which a variable has one value: from the first one to before the end.
#[derive(Clone, Copy)]
pub(crate) struct Stretch<'a> {
    pub begin: usize,
    pub end: usize,
    pub value: Option<&'a [u8]>,
}

/// The variables of a trace, by their places.
pub(crate) fn columns_of<'a>(
    alloc: Global,
    moments: &[ReportMoment<'a>],
) -> Result<Vec<TraceColumn<'a>>, OutOfMemory> {
    let mut columns = Vec::new(alloc);
    if let Some(first) = moments.first() {
        for (i, line) in first.lines.iter().enumerate() {
            columns.push(TraceColumn {
                name: line.name,
                kind: kind_at(moments, i, line.name),
            })?;
        }
    }
    Ok(columns)
}

/// The value of a variable in a moment.
pub(crate) fn value_at<'a>(
    moment: &ReportMoment<'a>,
    place: usize,
    name: &[u8],
) -> Option<&'a [u8]> {
    let line = moment.lines.get(place)?;
    if line.name == name {
        Some(line.value)
    } else {
        None
    }
}

/// The stretches of a variable, which follow one another from the first moment to the last.
pub(crate) fn stretches_of<'a>(
    alloc: Global,
    moments: &[ReportMoment<'a>],
    place: usize,
    name: &[u8],
) -> Result<Vec<Stretch<'a>>, OutOfMemory> {
    let mut stretches = Vec::new(alloc);
    let mut open: Option<Stretch<'a>> = None;
    for (i, moment) in moments.iter().enumerate() {
        let value = value_at(moment, place, name);
        let begin = match open {
            Some(last) if last.value == value => last.begin,
            Some(last) => {
                stretches.push(last)?;
                i
            }
            None => i,
        };
        open = Some(Stretch {
            begin,
            end: i + 1,
            value,
        });
    }
    if let Some(last) = open {
        stretches.push(last)?;
    }
    Ok(stretches)
}

/// The kind of the values of a variable.
fn kind_at(moments: &[ReportMoment<'_>], place: usize, name: &[u8]) -> ColumnKind {
    let mut kind = None;
    for moment in moments {
        if let Some(value) = value_at(moment, place, name) {
            kind = Some(joined(kind, kind_of(value)));
        }
    }
    kind.unwrap_or(ColumnKind::Symbol)
}

/// The kind that has these values and those of another kind.
fn joined(kind: Option<ColumnKind>, other: ColumnKind) -> ColumnKind {
    match (kind, other) {
        (None, it) => it,
        (Some(ColumnKind::Truth), ColumnKind::Truth) => ColumnKind::Truth,
        (Some(ColumnKind::Whole), ColumnKind::Whole) => ColumnKind::Whole,
        (Some(ColumnKind::Whole), ColumnKind::Long) => ColumnKind::Long,
        (Some(ColumnKind::Long), ColumnKind::Whole) => ColumnKind::Long,
        (Some(ColumnKind::Long), ColumnKind::Long) => ColumnKind::Long,
        _ => ColumnKind::Symbol,
    }
}

/// The kind of a value.
fn kind_of(value: &[u8]) -> ColumnKind {
    if value == b"TRUE".as_slice() || value == b"FALSE".as_slice() {
        ColumnKind::Truth
    } else if !is_number(value) {
        ColumnKind::Symbol
    } else if whole_of(value).is_some() {
        ColumnKind::Whole
    } else {
        ColumnKind::Long
    }
}

/// Whether these are digits without needless zeros, behind a minus or not.
fn is_number(value: &[u8]) -> bool {
    match value {
        [b'0'] => true,
        [b'-', digits @ ..] => are_digits(digits),
        digits => are_digits(digits),
    }
}

/// Whether these are digits, of which the first is not 0.
fn are_digits(bytes: &[u8]) -> bool {
    match bytes {
        [] | [b'0', ..] => false,
        _ => bytes.iter().all(|byte| byte.is_ascii_digit()),
    }
}

/// The number that these digits are, where it has 64 bits with its sign.
pub(crate) fn whole_of(value: &[u8]) -> Option<i64> {
    match value {
        [b'-', digits @ ..] => number_in(digits, true),
        digits => number_in(digits, false),
    }
}

/// The number of digits, below 0 or not.
fn number_in(digits: &[u8], is_negative: bool) -> Option<i64> {
    let mut number: i64 = 0;
    for byte in digits {
        let digit = i64::from(digit_of(*byte)?);
        number = number.checked_mul(10)?;
        number = if is_negative {
            number.checked_sub(digit)?
        } else {
            number.checked_add(digit)?
        };
    }
    Some(number)
}

/// The value of a digit.
fn digit_of(byte: u8) -> Option<u8> {
    if byte.is_ascii_digit() {
        Some(byte - b'0')
    } else {
        None
    }
}
