//! Lines and items of a file as they are shown, and the lines that are looked for by a number or by a moment.
//!
//! [`append_spot`] shows a line with a caret under the place; [`line_of_number`] and [`line_of_moment`] find lines.
ghost use Rattle.std.specs.Prelude.{◌≡◌, ◌+◌, ◌<◌, length, IfSome, IsNone};
ghost use Rattle.xsap_refusals.specs.Lines.{is_feed, feeds_before, HasNoLine};

use crate::lines::{FileSpot, spot_of, until_feed};
use smv_lexer::OutOfMemory;
use std::alloc::Global;

/// Appends a line of a file, and a line with a caret under the place.
pub(crate) fn append_spot(text: &mut Vec<u8>, spot: &FileSpot<'_>) -> Result<(), OutOfMemory> {
    append_line(text, spot.text)?;
    let (before, _) = spot
        .text
        .split_at(spot.text.len().min(spot.column.saturating_sub(1)));
    append_blanks(text, before)?;
    append_text(text, b"^\n")
}

/// Appends bytes of a file and a line feed.
pub(crate) fn append_line(text: &mut Vec<u8>, bytes: &[u8]) -> Result<(), OutOfMemory> {
    append_text(text, bytes)?;
    append_text(text, b"\n")
}

/// Appends bytes as they are shown.
pub(crate) fn append_text(text: &mut Vec<u8>, bytes: &[u8]) -> Result<(), OutOfMemory> {
    for byte in bytes {
        text.push(shown_byte(*byte))?;
    }
    Ok(())
}

/// Appends as many blanks as the bytes take on the line above: a tab for a tab, and one space for the bytes of a character.
fn append_blanks(text: &mut Vec<u8>, bytes: &[u8]) -> Result<(), OutOfMemory> {
    for byte in bytes {
        match *byte {
            b'\t' => text.push(b'\t')?,
            128..=191 => {}
            _ => text.push(b' ')?,
        }
    }
    Ok(())
}

/// The byte itself, but `?` for one that would move the cursor or change the terminal.
fn shown_byte(byte: u8) -> u8 {
    match byte {
        b'\n' | b'\t' => byte,
        0..=31 | 127 => b'?',
        _ => byte,
    }
}

/// The line of a number, from 1. A line is there where it has a byte, be it its line feed alone.
pub(crate) fn line_of_number(bytes: &[u8], number: u64) -> Option<FileSpot<'_>>
    ensures found { IfSome result (λ spot. spot.line ≡ number) }
    ensures none { IsNone result → HasNoLine bytes.now number }
{
    match line_start(bytes, number) {
        Some(place) => spot_of(bytes, place),
        None => None,
    }
}

/// The first place of the line of a number.
fn line_start(bytes: &[u8], number: u64) -> Option<usize>
    ensures found { IfSome result (λ place. (place < length bytes.now) × (feeds_before bytes.now place + 1 ≡ number)) }
    ensures none { IsNone result → HasNoLine bytes.now number }
{
    let mut line: u64 = 1;
    for (place, byte) in bytes.iter().enumerate() {
        if line == number {
            return Some(place);
        }
        if is_feed(*byte) {
            line += 1;
        }
    }
    None
}

/// Whether the byte is a line feed.
fn is_feed(byte: u8) -> bool
    ensures { result ≡ is_feed byte }
{
    byte == b'\n'
}

/// The line at which the moment of a number begins, from 0.
pub(crate) fn line_of_moment(
    alloc: Global,
    bytes: &[u8],
    number: u64,
) -> Result<Option<FileSpot<'_>>, OutOfMemory> {
    let wanted = format!(in alloc; "moment {number}")?;
    Ok(line_with(bytes, wanted.as_bytes()))
}

/// The first line that is this text.
fn line_with<'a>(bytes: &'a [u8], wanted: &[u8]) -> Option<FileSpot<'a>>
    ensures { IfSome result (λ spot. spot.text.now ≡ wanted.now) }
{
    let mut place = 0;
    while place < bytes.len() {
        let (_, rest) = bytes.split_at(place);
        let (line, _) = rest.split_at(until_feed(rest));
        if line == wanted {
            let spot = spot_of(bytes, place)?;
            return if spot.text == wanted {
                Some(spot)
            } else {
                None
            };
        }
        place += line.len() + 1;
    }
    None
}
