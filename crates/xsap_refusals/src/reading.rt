//! Reads the line of a refusal. What its words seem to say is spelled anew, and taken only where that is the line itself; so the
//! look at the words may be a rough one.
ghost use Rattle.std.specs.Prelude.{◌≡◌, IfOk, IfSome};
ghost use Rattle.xsap_refusals.specs.RefusalLines.{line_of};

use crate::refusal::{MomentReason, RefusalLine, RefusedPart, Subject};
use smv_lexer::OutOfMemory;
use std::alloc::Global;

/// The refusal of a line, without its line feed, where it is one's to the byte.
pub fn read_refusal(alloc: Global, line: &str) -> Result<Option<RefusalLine>, OutOfMemory>
    ensures { IfOk result (λ read. IfSome read (λ refusal. line_of refusal ≡ line.now)) }
{
    let Some(refusal) = guessed(line) else {
        return Ok(None);
    };
    let spelled = refusal.line(alloc)?;
    if spelled.as_str() == line {
        Ok(Some(refusal))
    } else {
        Ok(None)
    }
}

/// What the words of a line seem to say.
fn guessed(line: &str) -> Option<RefusalLine> {
    let (first, rest) = first_word(line);
    match first {
        "refused" => refused(rest),
        "not" => objected(rest),
        _ => None,
    }
}

/// A refusal by the words behind `refused`.
fn refused(text: &str) -> Option<RefusalLine> {
    let (subject, rest) = first_word(text);
    if subject == "words" {
        let (number, place) = number_and_place(rest)?;
        return Some(RefusalLine::Words { number, place });
    }
    let subject = Subject::named(subject)?;
    let (part, rest) = first_word(rest);
    let part = RefusedPart::named(part)?;
    let (number, place) = number_and_place(rest)?;
    Some(RefusalLine::File {
        subject,
        part,
        number,
        place,
    })
}

/// The numbers of `N at P`.
fn number_and_place(text: &str) -> Option<(u32, u64)> {
    let (number, rest) = first_word(text);
    let (_, place) = first_word(rest);
    let number = number.parse::<u32>().ok()?;
    let place = place.parse::<u64>().ok()?;
    Some((number, place))
}

/// An objection by the words behind `not`: `accepted moment i WHY` or `accepted line L rule R`.
fn objected(text: &str) -> Option<RefusalLine> {
    let (_, rest) = first_word(text);
    let (kind, rest) = first_word(rest);
    let (place, rest) = first_word(rest);
    let place = place.parse::<u64>().ok()?;
    match kind {
        "moment" => Some(RefusalLine::Moment {
            moment: place,
            why: MomentReason::named(rest)?,
        }),
        "line" => {
            let (_, rule) = first_word(rest);
            let rule = rule.parse::<u32>().ok()?;
            Some(RefusalLine::Line { line: place, rule })
        }
        _ => None,
    }
}

/// The text up to the first space, and the text behind it.
fn first_word(text: &str) -> (&str, &str) {
    match text.split_once(' ') {
        Some((word, rest)) => (word, rest),
        None => (text, ""),
    }
}
