//! The text that explains a refusal.
//!
//! [`look_up`] finds what a refusal means and how its place is found, and [`Explanation::text`] makes the text, with the place as it
//! stands in the refused file.
ghost use Rattle.std.specs.Prelude.{◌≡◌, ◌++◌, IfOk, IfSome, List, ℕ, string_bytes};
ghost use Rattle.xsap_refusals.specs.RefusalLines.{head_text, place_of};

use crate::finding::{ItemsKind, ShownPlace, finding_of, shown_of};
use crate::items::{between, find_item};
use crate::lines::spot_of;
use crate::meanings::meaning;
use crate::refusal::RefusalLine;
use crate::showing::{append_line, append_spot, append_text, line_of_moment, line_of_number};
use smv_lexer::OutOfMemory;
use std::alloc::Global;

/// What a refusal means, the place that it tells, how that is found, and what is shown of the file that was refused.
#[derive(Clone, Copy)]
pub struct Explanation {
    pub meaning: &'static str,
    pub place: u64,
    pub found: &'static str,
    shown: ShownPlace,
}

/// What a refusal means, where it is one that the program says.
pub fn look_up(refusal: &RefusalLine) -> Option<Explanation>
    ensures { IfSome result (λ explanation. explanation.place ≡ place_of refusal.now) }
{
    let meaning = meaning(refusal)?;
    Some(Explanation {
        meaning,
        place: refusal.place(),
        found: finding_of(refusal).sentence(),
        shown: shown_of(refusal),
    })
}

impl Explanation {
    /// Whether the place lies in the file, so that the text needs its bytes.
    pub fn needs_file(&self) -> bool {
        !matches!(self.shown, ShownPlace::Nothing)
    }

    /// The meaning, the place, how it is found, and the place in the file with these bytes, where it lies there; each line ends with
    /// a line feed.
    pub fn text(&self, alloc: Global, file: &[u8]) -> Result<Vec<u8>, OutOfMemory>
        ensures { IfOk result (λ text. (more : List ℕ)
            × (text.items ≡ head_text self.now.meaning.now self.now.place self.now.found.now ++ more)) }
    {
        let head = head(alloc, self.meaning, self.place, self.found)?;
        let more = place_text(alloc, &self.shown, file)?;
        let mut text = Vec::from_slice(alloc, head.as_bytes())?;
        text.extend_from_slice(&more)?;
        Ok(text)
    }
}

/// The two lines that stand before every place.
fn head(alloc: Global, meaning: &str, place: u64, found: &str) -> Result<String, OutOfMemory>
    ensures { IfOk result (λ head. string_bytes head ≡ head_text meaning.now place found.now) }
{
    Ok(format!(in alloc; "means: {meaning}\nplace {place}: {found}\n")?)
}

/// The lines that show a place in a file.
fn place_text(alloc: Global, shown: &ShownPlace, file: &[u8]) -> Result<Vec<u8>, OutOfMemory> {
    let mut text = Vec::new(alloc);
    match *shown {
        ShownPlace::Nothing => {}
        ShownPlace::Byte(at) => append_byte(alloc, &mut text, file, at)?,
        ShownPlace::Item(items, number) => append_item(alloc, &mut text, file, items, number)?,
        ShownPlace::Line(number) => append_numbered(alloc, &mut text, file, number)?,
        ShownPlace::Moment(number) => append_moment(alloc, &mut text, file, number)?,
    }
    Ok(text)
}

/// Appends the line of a byte, with a caret under it.
fn append_byte(alloc: Global, text: &mut Vec<u8>, file: &[u8], at: u64) -> Result<(), OutOfMemory> {
    match spot_of(file, at as usize) {
        Some(spot) => {
            let line = spot.line;
            let column = spot.column;
            let head = format!(in alloc; "byte {at} is in line {line}, column {column}:\n")?;
            append_text(text, head.as_bytes())?;
            append_spot(text, &spot)
        }
        None => {
            let head = format!(in alloc; "the file has no byte {at}\n")?;
            append_text(text, head.as_bytes())
        }
    }
}

/// Appends where an item begins, with a caret under it, and its text.
fn append_item(
    alloc: Global,
    text: &mut Vec<u8>,
    file: &[u8],
    items: ItemsKind,
    number: u64,
) -> Result<(), OutOfMemory> {
    let name = match items {
        ItemsKind::Model | ItemsKind::Faults => "item",
        ItemsKind::Events => "top event",
        ItemsKind::Causes => "cause",
    };
    let Some(item) = find_item(alloc, file, items, number)? else {
        let head = format!(in alloc; "the file has no {name} {number}\n")?;
        return append_text(text, head.as_bytes());
    };
    if let Some(spot) = spot_of(file, item.start) {
        let line = spot.line;
        let column = spot.column;
        let head = format!(in alloc; "{name} {number} begins in line {line}, column {column}:\n")?;
        append_text(text, head.as_bytes())?;
        append_spot(text, &spot)?;
    }
    append_text(text, b"its text:\n")?;
    append_line(text, between(file, item.start, item.end))
}

/// Appends the line of a number, from 1.
fn append_numbered(
    alloc: Global,
    text: &mut Vec<u8>,
    file: &[u8],
    number: u64,
) -> Result<(), OutOfMemory> {
    match line_of_number(file, number) {
        Some(spot) => {
            let head = format!(in alloc; "line {number}:\n")?;
            append_text(text, head.as_bytes())?;
            append_line(text, spot.text)
        }
        None => {
            let head = format!(in alloc; "the file has no line {number}\n")?;
            append_text(text, head.as_bytes())
        }
    }
}

/// Appends the line at which a moment begins, from 0.
fn append_moment(
    alloc: Global,
    text: &mut Vec<u8>,
    file: &[u8],
    number: u64,
) -> Result<(), OutOfMemory> {
    match line_of_moment(alloc, file, number)? {
        Some(spot) => {
            let line = spot.line;
            let head = format!(in alloc; "moment {number} begins in line {line}:\n")?;
            append_text(text, head.as_bytes())?;
            append_line(text, spot.text)
        }
        None => {
            let head = format!(in alloc; "the file has no moment {number}\n")?;
            append_text(text, head.as_bytes())
        }
    }
}
