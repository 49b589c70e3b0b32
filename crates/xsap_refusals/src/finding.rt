//! How the place of a refusal is found, and what is shown of a file there. The table in docs/MANUAL.md on how a place is found has
//! the same sentences, word for word and in this order; `tools/meanings` compares the two.
ghost use Rattle.std.specs.Prelude.{◌≡◌, ◌<◌};
ghost use Rattle.xsap_refusals.specs.declared.finding.ShownPlace.TheVariants as shown;

use crate::refusal::{RefusalLine, RefusedPart, Subject};

/// How a place is found: a row of the manual's table.
#[derive(Clone, Copy)]
pub(crate) enum Finding {
    Absent,
    Length,
    Byte,
    ModelItem,
    FaultsItem,
    EventByte,
    Event,
    Count,
    Cause,
    TraceLine,
    CertLine,
    Moment,
    CertRule,
    Word,
}

/// What the items of a file are.
#[derive(Clone, Copy)]
pub(crate) enum ItemsKind {
    /// Headers, declarations, defines, assignments and sections of a model.
    Model,
    /// EXTENSION, SLICE and MODE of instructions.
    Faults,
    /// The top events of a file.
    Events,
    /// The causes of a file.
    Causes,
}

/// What is shown of a file: a byte, counted from 0, an item or a line, from 1, or the line at which a moment begins, from 0.
#[derive(Clone, Copy)]
pub(crate) enum ShownPlace {
    Nothing,
    Byte(u64),
    Item(ItemsKind, u64),
    Line(u64),
    Moment(u64),
}

impl Finding {
    /// The sentence that says how the place is found.
    pub(crate) fn sentence(self) -> &'static str {
        match self {
            Finding::Absent => "0",
            Finding::Length => "the limit",
            Finding::Byte =>
                "bytes from the beginning of the file, the first being 0; for `parse 2` the number of bytes; for `parse 3` it is 0",
            Finding::ModelItem => "the number of the item; 0 for `flat 1` and `type 9`",
            Finding::FaultsItem =>
                "the number of the item; 0 for the limits of the extension, `flat 14` and `type 9`",
            Finding::EventByte =>
                "bytes from the beginning of the word, or of the file, the first being 0; for `parse 2` the number of bytes; for `parse \
                    3` it is 0",
            Finding::Event => "0 for a word; in a file the number of the top event, from 1",
            Finding::Count => "65; of a set the position of the number in it, from 1",
            Finding::Cause =>
                "the number of the cause, from 1; 0 where a name that is added for a fault is taken: `own#i`, `self#i` or `none#i`",
            Finding::TraceLine => "the line, from 1; for `read 4` the moment, from 0",
            Finding::CertLine => "the line, from 1, also for one that is missing",
            Finding::Moment => "the moment, from 0",
            Finding::CertRule => "the line of the certificate, from 1",
            Finding::Word =>
                "the word, from 1, the verb being 1; for `words 5` the option's place in the verb's row of the table of verbs",
        }
    }
}

/// How the place of a refusal is found.
pub(crate) fn finding_of(refusal: &RefusalLine) -> Finding {
    match *refusal {
        RefusalLine::Words { .. } => Finding::Word,
        RefusalLine::File { subject, part, .. } => match part {
            RefusedPart::Absent => Finding::Absent,
            RefusedPart::Length => Finding::Length,
            RefusedPart::Lex | RefusedPart::Parse if subject == Subject::Top => Finding::EventByte,
            RefusedPart::Lex | RefusedPart::Parse => Finding::Byte,
            RefusedPart::Count => Finding::Count,
            RefusedPart::Cause => Finding::Cause,
            RefusedPart::Read if subject == Subject::Cert => Finding::CertLine,
            RefusedPart::Read => Finding::TraceLine,
            RefusedPart::Flat
            | RefusedPart::Kinds
            | RefusedPart::Weave
            | RefusedPart::Effect
            | RefusedPart::Mark => item_of(subject),
        },
        RefusalLine::Moment { .. } => Finding::Moment,
        RefusalLine::Line { .. } => Finding::CertRule,
    }
}

/// How an item of an input is found.
fn item_of(subject: Subject) -> Finding {
    match subject {
        Subject::Faults => Finding::FaultsItem,
        Subject::Top => Finding::Event,
        Subject::Model | Subject::Trace | Subject::Cert | Subject::Causes | Subject::Set =>
            Finding::ModelItem,
    }
}

/// What is shown of the file of a refusal. A set is a word.
pub(crate) fn shown_of(refusal: &RefusalLine) -> ShownPlace {
    match *refusal {
        RefusalLine::Words { .. } => ShownPlace::Nothing,
        RefusalLine::File {
            subject: Subject::Set,
            ..
        } => ShownPlace::Nothing,
        RefusalLine::File {
            part,
            number,
            place,
            ..
        } => shown_at(finding_of(refusal), part, number, place),
        RefusalLine::Moment { moment, .. } => ShownPlace::Moment(moment),
        RefusalLine::Line { line, .. } => ShownPlace::Line(line),
    }
}

/// What is shown at a place that is found in this way.
fn shown_at(finding: Finding, part: RefusedPart, number: u32, place: u64) -> ShownPlace {
    match finding {
        Finding::Byte | Finding::EventByte if part == RefusedPart::Parse && number == 3 =>
            ShownPlace::Nothing,
        Finding::Byte | Finding::EventByte => ShownPlace::Byte(place),
        Finding::ModelItem => shown_item(ItemsKind::Model, place),
        Finding::FaultsItem => shown_item(ItemsKind::Faults, place),
        Finding::Event | Finding::Count => shown_item(ItemsKind::Events, place),
        Finding::Cause => shown_item(ItemsKind::Causes, place),
        Finding::TraceLine if number == 4 => ShownPlace::Moment(place),
        Finding::TraceLine | Finding::CertLine => ShownPlace::Line(place),
        Finding::Absent | Finding::Length | Finding::Moment | Finding::CertRule | Finding::Word =>
            ShownPlace::Nothing,
    }
}

/// The item of a number, and nothing for 0.
fn shown_item(items: ItemsKind, number: u64) -> ShownPlace
    ensures none { number ≡ 0 → result ≡ shown.Nothing }
    ensures item { 0 < number → result ≡ shown.Item items number }
{
    if number == 0 {
        ShownPlace::Nothing
    } else {
        ShownPlace::Item(items, number)
    }
}
