//! Refusals, and the line that each is said by.
//!
//! [`RefusalLine`] has a case for each form of line, [`RefusalLine::line`] spells it, and `named` finds a subject, a part or a reason by
//! its word.
ghost use Rattle.std.specs.Prelude.{◌≡◌, IfOk, string_bytes};
ghost use Rattle.xsap_refusals.specs.RefusalLines.{subject_text, part_text, why_text, words_line, file_line, moment_line, rule_line};
ghost use Rattle.xsap_refusals.specs.RefusalLines.{line_of, place_of};

use smv_lexer::OutOfMemory;
use std::alloc::Global;

/// What is refused: the model, the instructions, the top event or the file of top events, the trace, the certificate, the file of
/// causes, or the set of an order.
#[derive(Clone, Copy, Debug, PartialEq, Eq)]
pub enum Subject {
    Model,
    Faults,
    Top,
    Trace,
    Cert,
    Causes,
    Set,
}

/// How far the work on it came: the PART of a refusal's line.
#[derive(Clone, Copy, Debug, PartialEq, Eq)]
pub enum RefusedPart {
    Absent,
    Length,
    Lex,
    Parse,
    Flat,
    /// Said as `type`.
    Kinds,
    Weave,
    Effect,
    Mark,
    Cause,
    Count,
    Read,
}

/// Why a moment of a trace is not accepted.
#[derive(Clone, Copy, Debug, PartialEq, Eq)]
pub enum MomentReason {
    First,
    Step,
    Top,
}

/// What a line of refusal says. Places are as in the manual's table: bytes and moments count from 0, words, lines, items and top
/// events from 1.
#[derive(Clone, Copy, Debug, PartialEq, Eq)]
pub enum RefusalLine {
    /// `refused words N at P`.
    Words {
        number: u32,
        place: u64,
    },
    /// `refused model PART N at P`, and likewise of the other subjects.
    File {
        subject: Subject,
        part: RefusedPart,
        number: u32,
        place: u64,
    },
    /// `not accepted moment i first`, and likewise of the other reasons.
    Moment {
        moment: u64,
        why: MomentReason,
    },
    /// `not accepted line L rule R`.
    Line {
        line: u64,
        rule: u32,
    },
}

impl Subject {
    /// The word that it is said by.
    pub fn text(self) -> &'static str
        ensures { result.now ≡ subject_text self }
    {
        match self {
            Subject::Model => "model",
            Subject::Faults => "faults",
            Subject::Top => "top",
            Subject::Trace => "trace",
            Subject::Cert => "cert",
            Subject::Causes => "causes",
            Subject::Set => "set",
        }
    }

    /// The subject that is said by a word.
    pub(crate) fn named(word: &str) -> Option<Subject> {
        match word {
            "model" => Some(Subject::Model),
            "faults" => Some(Subject::Faults),
            "top" => Some(Subject::Top),
            "trace" => Some(Subject::Trace),
            "cert" => Some(Subject::Cert),
            "causes" => Some(Subject::Causes),
            "set" => Some(Subject::Set),
            _ => None,
        }
    }
}

impl RefusedPart {
    /// The word that it is said by.
    pub fn text(self) -> &'static str
        ensures { result.now ≡ part_text self }
    {
        match self {
            RefusedPart::Absent => "absent",
            RefusedPart::Length => "length",
            RefusedPart::Lex => "lex",
            RefusedPart::Parse => "parse",
            RefusedPart::Flat => "flat",
            RefusedPart::Kinds => "type",
            RefusedPart::Weave => "weave",
            RefusedPart::Effect => "effect",
            RefusedPart::Mark => "mark",
            RefusedPart::Cause => "cause",
            RefusedPart::Count => "count",
            RefusedPart::Read => "read",
        }
    }

    /// The part that is said by a word.
    pub(crate) fn named(word: &str) -> Option<RefusedPart> {
        match word {
            "absent" => Some(RefusedPart::Absent),
            "length" => Some(RefusedPart::Length),
            "lex" => Some(RefusedPart::Lex),
            "parse" => Some(RefusedPart::Parse),
            "flat" => Some(RefusedPart::Flat),
            "type" => Some(RefusedPart::Kinds),
            "weave" => Some(RefusedPart::Weave),
            "effect" => Some(RefusedPart::Effect),
            "mark" => Some(RefusedPart::Mark),
            "cause" => Some(RefusedPart::Cause),
            "count" => Some(RefusedPart::Count),
            "read" => Some(RefusedPart::Read),
            _ => None,
        }
    }
}

impl MomentReason {
    /// The word that it is said by.
    pub fn text(self) -> &'static str
        ensures { result.now ≡ why_text self }
    {
        match self {
            MomentReason::First => "first",
            MomentReason::Step => "step",
            MomentReason::Top => "top",
        }
    }

    /// The reason that is said by a word.
    pub(crate) fn named(word: &str) -> Option<MomentReason> {
        match word {
            "first" => Some(MomentReason::First),
            "step" => Some(MomentReason::Step),
            "top" => Some(MomentReason::Top),
            _ => None,
        }
    }
}

impl RefusalLine {
    /// The place that its line tells.
    pub fn place(&self) -> u64
        ensures { result ≡ place_of self.now }
    {
        match *self {
            RefusalLine::Words { place, .. } | RefusalLine::File { place, .. } => place,
            RefusalLine::Moment { moment, .. } => moment,
            RefusalLine::Line { line, .. } => line,
        }
    }

    /// The line of the refusal, without its line feed.
    pub fn line(&self, alloc: Global) -> Result<String, OutOfMemory>
        ensures { IfOk result (λ line. string_bytes line ≡ line_of self.now) }
    {
        match *self {
            RefusalLine::Words { number, place } => words_line(alloc, number, place),
            RefusalLine::File {
                subject,
                part,
                number,
                place,
            } => file_line(alloc, subject, part, number, place),
            RefusalLine::Moment { moment, why } => moment_line(alloc, moment, why),
            RefusalLine::Line { line, rule } => rule_line(alloc, line, rule),
        }
    }
}

/// The line of refused words.
fn words_line(alloc: Global, number: u32, place: u64) -> Result<String, OutOfMemory>
    ensures { IfOk result (λ line. string_bytes line ≡ words_line number place) }
{
    Ok(format!(in alloc; "refused words {number} at {place}")?)
}

/// The line of a refused input.
fn file_line(
    alloc: Global,
    subject: Subject,
    part: RefusedPart,
    number: u32,
    place: u64,
) -> Result<String, OutOfMemory>
    ensures { IfOk result (λ line. string_bytes line ≡ file_line subject part number place) }
{
    let subject = subject.text();
    let part = part.text();
    Ok(format!(in alloc; "refused {subject} {part} {number} at {place}")?)
}

/// The line of a moment that is not accepted.
fn moment_line(alloc: Global, moment: u64, why: MomentReason) -> Result<String, OutOfMemory>
    ensures { IfOk result (λ line. string_bytes line ≡ moment_line moment why) }
{
    let why = why.text();
    Ok(format!(in alloc; "not accepted moment {moment} {why}")?)
}

/// The line of a certificate's line that is not accepted.
fn rule_line(alloc: Global, line: u64, rule: u32) -> Result<String, OutOfMemory>
    ensures { IfOk result (λ text. string_bytes text ≡ rule_line line rule) }
{
    Ok(format!(in alloc; "not accepted line {line} rule {rule}")?)
}
