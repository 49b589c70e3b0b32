//! The time line of a trace as a picture in SVG: a lane for each variable, in which moments go from left to right. [`append_picture`] is
//! the main function.
//!
//! A boolean is a line that is high where it is true, a number a line of steps, and anything else a box for each value; where a fault has
//! struck, the box is a bar as long as it stays. Lanes with such bars come first. Lengths are pixels; they are kept from wrapping, so
//! that any report has a picture.
use crate::columns::ColumnKind;
use crate::escapes::append_characters;
use crate::lanes::{Bar, HIGH, Lane};
use crate::pieces::append_numbered;
use base_values::{ByteList, OutOfMemory};
use std::alloc::Global;

/// Where the first moment begins, how wide a moment is, and how many there are.
#[derive(Clone, Copy)]
struct Scale {
    left: u64,
    step: u64,
    count: u64,
}

/// The height of the numbers of the moments, and of a lane.
const HEAD: u64 = 26;

const LANE: u64 = 40;

/// The width of a character, and the characters that a moment has room for at least and at most.
const CHARACTER: u64 = 8;

const FEWEST: usize = 5;

const MOST: usize = 20;

/// Appends the picture of the trace of a number, with these lanes and so many moments.
pub(crate) fn append_picture(
    alloc: Global,
    text: &mut ByteList,
    lanes: &[Lane<'_>],
    count: usize,
    number: u64,
) -> Result<(), OutOfMemory> {
    let scale = scale_of(lanes, count as u64);
    append_size(alloc, text, lanes, scale)?;
    append_title(alloc, text, number)?;
    append_description(alloc, text, lanes, scale, number)?;
    append_grid(alloc, text, lanes, scale)?;
    let top = append_lanes(alloc, text, lanes, scale, true, HEAD)?;
    append_lanes(alloc, text, lanes, scale, false, top)?;
    text.append(b"</svg>\n")
}

/// The scale on which the names and the values of lanes have room.
fn scale_of(lanes: &[Lane<'_>], count: u64) -> Scale {
    let mut name: usize = 0;
    let mut value = FEWEST;
    for lane in lanes {
        name = lane.name.len().max(name);
        value = longest_of(&lane.bars).max(value);
    }
    Scale {
        left: width_of(name).saturating_add(16),
        step: width_of(value.min(MOST)).saturating_add(16),
        count,
    }
}

/// How wide so many characters are.
fn width_of(characters: usize) -> u64 {
    (characters as u64).saturating_mul(CHARACTER)
}

/// The length of the longest value.
fn longest_of(bars: &[Bar<'_>]) -> usize {
    let mut longest = 0;
    for bar in bars {
        if let Some(value) = bar.stretch.value {
            longest = value.len().max(longest);
        }
    }
    longest
}

/// Where the moment at a place begins.
fn place_of(scale: Scale, moment: u64) -> u64 {
    moment.saturating_mul(scale.step).saturating_add(scale.left)
}

/// Where the lanes end.
fn bottom_of(lanes: &[Lane<'_>]) -> u64 {
    (lanes.len() as u64)
        .saturating_mul(LANE)
        .saturating_add(HEAD)
}

/// Appends the begin of the picture with its size.
fn append_size(
    alloc: Global,
    text: &mut ByteList,
    lanes: &[Lane<'_>],
    scale: Scale,
) -> Result<(), OutOfMemory> {
    let width = place_of(scale, scale.count).saturating_add(8);
    let height = bottom_of(lanes).saturating_add(4);
    append_numbered(alloc, text, b"<svg role=\"img\" width=\"", width)?;
    append_numbered(alloc, text, b"\" height=\"", height)?;
    append_numbered(alloc, text, b"\" viewBox=\"0 0 ", width)?;
    append_numbered(alloc, text, b" ", height)
}

/// Appends by what the picture is called, and its title.
fn append_title(alloc: Global, text: &mut ByteList, number: u64) -> Result<(), OutOfMemory> {
    append_numbered(alloc, text, b"\" aria-labelledby=\"title-", number)?;
    append_numbered(alloc, text, b" desc-", number)?;
    append_numbered(alloc, text, b"\">\n<title id=\"title-", number)?;
    append_numbered(alloc, text, b"\">Time line of set ", number)?;
    text.append(b"</title>\n")
}

/// Appends what the picture shows, in words: its moments, and where faults strike.
fn append_description(
    alloc: Global,
    text: &mut ByteList,
    lanes: &[Lane<'_>],
    scale: Scale,
    number: u64,
) -> Result<(), OutOfMemory> {
    append_numbered(alloc, text, b"<desc id=\"desc-", number)?;
    append_numbered(
        alloc,
        text,
        b"\">Moments 0 to ",
        scale.count.saturating_sub(1),
    )?;
    text.append(b" from left to right, with a lane for each variable.")?;
    for lane in lanes {
        append_strikes(alloc, text, &lane.bars)?;
    }
    text.append(b" The table below has all values.</desc>\n")
}

/// Appends where faults strike in a lane, a sentence each.
fn append_strikes(alloc: Global, text: &mut ByteList, bars: &[Bar<'_>]) -> Result<(), OutOfMemory> {
    for bar in bars {
        if let Some(fault) = bar.fault {
            text.append(b" ")?;
            append_strike(alloc, text, fault, bar)?;
            text.append(b".")?;
        }
    }
    Ok(())
}

/// Appends when a fault strikes and how long it stays.
fn append_strike(
    alloc: Global,
    text: &mut ByteList,
    fault: &[u8],
    bar: &Bar<'_>,
) -> Result<(), OutOfMemory> {
    append_characters(text, fault)?;
    append_numbered(
        alloc,
        text,
        b" strikes at moment ",
        bar.stretch.begin as u64,
    )?;
    append_numbered(alloc, text, b" and stays to moment ", last_of(bar))
}

/// The last moment of a bar.
fn last_of(bar: &Bar<'_>) -> u64 {
    bar.stretch.end.saturating_sub(1) as u64
}

/// Appends the lines between the moments, and their numbers.
fn append_grid(
    alloc: Global,
    text: &mut ByteList,
    lanes: &[Lane<'_>],
    scale: Scale,
) -> Result<(), OutOfMemory> {
    let bottom = bottom_of(lanes);
    text.append(b"<path class=\"grid\" d=\"")?;
    for i in 0..scale.count {
        append_numbered(alloc, text, b"M", place_of(scale, i))?;
        append_numbered(alloc, text, b" 20V", bottom)?;
    }
    append_numbered(alloc, text, b"M", place_of(scale, scale.count))?;
    append_numbered(alloc, text, b" 20V", bottom)?;
    text.append(b"\"/>\n")?;
    for i in 0..scale.count {
        let middle = place_of(scale, i).saturating_add(scale.step / 2);
        append_numbered(alloc, text, b"<text class=\"moment\" x=\"", middle)?;
        append_numbered(alloc, text, b"\" y=\"15\">", i)?;
        text.append(b"</text>\n")?;
    }
    Ok(())
}

/// Appends those lanes that faults strike in, or the others, from this height on, and answers where they end.
fn append_lanes(
    alloc: Global,
    text: &mut ByteList,
    lanes: &[Lane<'_>],
    scale: Scale,
    are_struck: bool,
    top: u64,
) -> Result<u64, OutOfMemory> {
    let mut at = top;
    for lane in lanes {
        if lane.is_struck == are_struck {
            append_lane(alloc, text, lane, scale, at)?;
            at = at.saturating_add(LANE);
        }
    }
    Ok(at)
}

/// Appends a lane: the name of its variable, and its bars.
fn append_lane(
    alloc: Global,
    text: &mut ByteList,
    lane: &Lane<'_>,
    scale: Scale,
    top: u64,
) -> Result<(), OutOfMemory> {
    append_numbered(
        alloc,
        text,
        b"<text class=\"name\" x=\"8\" y=\"",
        top.saturating_add(24),
    )?;
    text.append(b"\">")?;
    append_characters(text, lane.name)?;
    text.append(b"</text>\n")?;
    let mut before = None;
    for bar in lane.bars.iter() {
        text.append(b"<g><title>")?;
        append_meaning(alloc, text, lane.name, bar)?;
        text.append(b"</title>")?;
        before = append_bar(
            alloc,
            text,
            lane.kind,
            bar,
            span_of(scale, bar, top),
            before,
        )?;
        text.append(b"</g>\n")?;
    }
    Ok(())
}

/// Where a bar begins and ends, and the top of its lane.
#[derive(Clone, Copy)]
struct BarSpan {
    begin: u64,
    end: u64,
    top: u64,
}

/// Where a bar is.
fn span_of(scale: Scale, bar: &Bar<'_>, top: u64) -> BarSpan {
    BarSpan {
        begin: place_of(scale, bar.stretch.begin as u64),
        end: place_of(scale, bar.stretch.end as u64),
        top,
    }
}

/// Appends what a bar means.
fn append_meaning(
    alloc: Global,
    text: &mut ByteList,
    name: &[u8],
    bar: &Bar<'_>,
) -> Result<(), OutOfMemory> {
    append_characters(text, name)?;
    text.append(b" = ")?;
    append_characters(text, bar.stretch.value.unwrap_or(b""))?;
    append_numbered(alloc, text, b", moments ", bar.stretch.begin as u64)?;
    append_numbered(alloc, text, b" to ", last_of(bar))?;
    if let Some(fault) = bar.fault {
        text.append(b"; ")?;
        append_strike(alloc, text, fault, bar)?;
    }
    Ok(())
}

/// Appends a bar, and answers the height of its line, where it has one. The bar before had such a height.
fn append_bar(
    alloc: Global,
    text: &mut ByteList,
    kind: ColumnKind,
    bar: &Bar<'_>,
    span: BarSpan,
    before: Option<u64>,
) -> Result<Option<u64>, OutOfMemory> {
    let Some(value) = bar.stretch.value else {
        return Ok(None);
    };
    match kind {
        ColumnKind::Truth | ColumnKind::Whole => {
            let line = span
                .top
                .saturating_add(6)
                .saturating_add(HIGH.saturating_sub(bar.height));
            append_level(alloc, text, span, line, before.unwrap_or(line))?;
            append_value(alloc, text, value, b"value", span, 33)?;
            Ok(Some(line))
        }
        ColumnKind::Long | ColumnKind::Symbol => {
            append_box(alloc, text, span, bar.fault.is_some())?;
            append_value(alloc, text, value, class_of(bar), span, 24)?;
            Ok(None)
        }
    }
}

/// How the value in a box is written.
fn class_of(bar: &Bar<'_>) -> &'static [u8] {
    if bar.fault.is_some() {
        b"struck"
    } else {
        b"value"
    }
}

/// Appends the line of a bar at a height, from the height of the bar before, and the area below it.
fn append_level(
    alloc: Global,
    text: &mut ByteList,
    span: BarSpan,
    line: u64,
    before: u64,
) -> Result<(), OutOfMemory> {
    let low = span.top.saturating_add(6).saturating_add(HIGH);
    append_numbered(alloc, text, b"<path class=\"under\" d=\"M", span.begin)?;
    append_numbered(alloc, text, b" ", line)?;
    append_numbered(alloc, text, b"H", span.end)?;
    append_numbered(alloc, text, b"V", low)?;
    append_numbered(alloc, text, b"H", span.begin)?;
    append_numbered(alloc, text, b"Z\"/><path class=\"level\" d=\"M", span.begin)?;
    append_numbered(alloc, text, b" ", before)?;
    append_numbered(alloc, text, b"V", line)?;
    append_numbered(alloc, text, b"H", span.end)?;
    text.append(b"\"/>")
}

/// Appends the box of a bar.
fn append_box(
    alloc: Global,
    text: &mut ByteList,
    span: BarSpan,
    is_struck: bool,
) -> Result<(), OutOfMemory> {
    if is_struck {
        text.append(b"<rect class=\"fault\" ")?;
    } else {
        text.append(b"<rect class=\"symbol\" ")?;
    }
    let width = span.end.saturating_sub(span.begin).saturating_sub(4);
    append_numbered(alloc, text, b"x=\"", span.begin.saturating_add(2))?;
    append_numbered(alloc, text, b"\" y=\"", span.top.saturating_add(5))?;
    append_numbered(alloc, text, b"\" width=\"", width)?;
    text.append(b"\" height=\"28\" rx=\"4\"/>")
}

/// Appends the value of a bar, as much of it as there is room for, so far below the top of its lane.
fn append_value(
    alloc: Global,
    text: &mut ByteList,
    value: &[u8],
    class: &[u8],
    span: BarSpan,
    below: u64,
) -> Result<(), OutOfMemory> {
    text.append(b"<text class=\"")?;
    text.append(class)?;
    append_numbered(alloc, text, b"\" x=\"", span.begin.saturating_add(8))?;
    append_numbered(alloc, text, b"\" y=\"", span.top.saturating_add(below))?;
    text.append(b"\">")?;
    append_cut(text, value, span.end.saturating_sub(span.begin) / CHARACTER)?;
    text.append(b"</text>")
}

/// Appends a value, of which so many characters have room; where they are fewer than it has, with three dots in place of the last.
fn append_cut(text: &mut ByteList, value: &[u8], room: u64) -> Result<(), OutOfMemory> {
    if value.len() as u64 <= room {
        return append_characters(text, value);
    }
    for (i, byte) in value.iter().enumerate() {
        if (i as u64).saturating_add(2) < room {
            append_characters(text, &[*byte])?;
        }
    }
    text.append(b"&#8230;")
}
