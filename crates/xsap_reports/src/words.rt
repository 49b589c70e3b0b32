//! The lines of a text and the words of a line.
ghost use Rattle.std.specs.Prelude.{◌≡◌, ◌<◌, ◌≤◌, length, IfOk, IfSome, All};
ghost use Rattle.std.specs.List.{list_all};
ghost use Rattle.xsap_reports.specs.Reports.{is_plain, is_word, IsListed};

use crate::fault::{Expected, ReportStop};
use base_values::{cut, first_line};
use std::alloc::{AllocError, Global};

/// The first line and the bytes behind its line feed, or the stop there.
pub(crate) fn take_line(bytes: &[u8], expected: Expected) -> Result<(&[u8], &[u8]), ReportStop>
    ensures { IfOk result (λ p. length p.1.now < length bytes.now) }
{
    match first_line(bytes) {
        Some((line, after)) => Ok((line, after)),
        None => Err(stop(bytes, expected)),
    }
}

/// The stop at the beginning of these bytes.
pub(crate) fn stop(bytes: &[u8], expected: Expected) -> ReportStop {
    ReportStop::At {
        left: bytes.len(),
        expected,
    }
}

/// The number behind this text, where the line begins with it.
pub(crate) fn number_behind(line: &[u8], head: &[u8]) -> Option<u32> {
    number_in(line.strip_prefix(head)?)
}

/// The number that these digits are, without a sign and without zeros before it.
pub(crate) fn number_in(digits: &[u8]) -> Option<u32> {
    match digits {
        [] | [b'0', _, ..] => None,
        _ => value_of(digits),
    }
}

/// The value of digits.
fn value_of(digits: &[u8]) -> Option<u32> {
    let mut value: u32 = 0;
    for digit in digits {
        value = value.checked_mul(10)?.checked_add(digit_of(*digit)?)?;
    }
    Some(value)
}

/// The value of a digit.
fn digit_of(byte: u8) -> Option<u32> {
    if byte.is_ascii_digit() {
        Some(u32::from(byte - b'0'))
    } else {
        None
    }
}

/// The text up to the first space, and the text behind that.
pub(crate) fn first_word(text: &[u8]) -> (&[u8], &[u8])
    ensures { length result.1.now ≤ length text.now }
{
    let (word, rest) = cut(text, b' ');
    match rest {
        [_, after @ ..] => (word, after),
        [] => (word, rest),
    }
}

/// Whether there is some byte, and each is plain.
pub(crate) fn is_word(text: &[u8]) -> bool
    ensures { result ≡ is_word text.now }
{
    match text {
        [] => false,
        _ => are_plain(text),
    }
}

/// Whether each byte is plain.
fn are_plain(text: &[u8]) -> bool
    ensures { result ≡ list_all is_plain text.now }
{
    text.iter().all(|byte| is_plain(*byte))
}

/// Whether a byte is a printed ASCII character, and no space.
pub(crate) fn is_plain(byte: u8) -> bool
    ensures { result ≡ is_plain byte }
{
    32 < byte && byte < 127
}

/// The numbers of a text in which each stands behind a space; they rise, from 1 up to so many.
pub(crate) fn rising_numbers(
    alloc: Global,
    text: &[u8],
    many: usize,
) -> Result<Option<Vec<u32>>, AllocError>
    ensures { IfOk result (λ read. IfSome read (λ numbers. All (IsListed many) numbers.items)) }
{
    let mut numbers = Vec::new(alloc);
    let mut last = 0;
    let mut rest = text;
    while let Some((number, more)) = next_number(rest) {
        if number <= last || number as usize > many {
            return Ok(None);
        }
        numbers.push(number)?;
        last = number;
        rest = more;
    }
    Ok(rest.is_empty().then_some(numbers))
}

/// The number behind the space that a text begins with, and the text behind it.
fn next_number(text: &[u8]) -> Option<(u32, &[u8])>
    ensures { IfSome result (λ p. length p.1.now < length text.now) }
{
    let [b' ', after @ ..] = text else {
        return None;
    };
    let (digits, more) = cut(after, b' ');
    Some((number_in(digits)?, more))
}
