//! How a run ends ([`Status`]), with which number, and the line that a refusal says ([`Refusal::line`], [`words_line`]). Each line is made
//! of fixed words and numbers alone, so that nothing of a file's text gets into it.
ghost use Rattle.std.specs.Prelude.{◌≡◌, ◌≤ℤ◌, pos, ◌++◌, IfOk, OnOk};
ghost use Rattle.cut_text_laws.specs.Analysis.{told_ending};
ghost use Rattle.verb_loading.specs.Statuses.{ended_with, IsFinished, number_of, status_of, part_text, rule_text, fault_text, words_text};
ghost use Rattle.verb_loading.specs.Statuses.{refusal_text, why_text, moment_text, line_text};

use base_values::{ByteList, Ending, OutOfMemory};
use std::alloc::Global;
use verb_command_line::WordFault;

/// What is wrong with an input: how far the work on it came.
#[derive(Clone, Copy, Debug, PartialEq, Eq)]
pub enum Part {
    /// There is no such file.
    Absent,
    /// The file is too long.
    Length,
    /// The bytes have no tokens.
    Lex,
    /// The tokens spell nothing, or something too deep.
    Parse,
    /// A rule of names, instances and assignments is broken.
    Flat,
    /// A rule of kinds, or a limit of size, is broken.
    Kinds,
    /// A rule of slices and modes is broken.
    Weave,
    /// The effect of a mode is not allowed at its variable.
    Effect,
    /// There are too many.
    Count,
    /// The text gives no trace, or spells no certificate.
    Read,
    /// The mark of a mode is absent, or no probability.
    Mark,
    /// A rule of common causes is broken.
    Cause,
}

/// Why an input is refused: the part, its rule's number, and the place. The place is a byte, counted from
/// 0, where the text is wrong; the limit in bytes, where it is too long; and an item of the program or of the
/// instructions, counted from 1 in written order, where a rule is broken. In the text of a trace or a certificate it
/// is a line, counted from 1, or for a value that is missing a moment, counted from 0. A cause's is its number, and a set's the
/// position of a number in it, each counted from 1. It is 0 where it says nothing.
#[derive(Clone, Copy, Debug, PartialEq, Eq)]
pub struct InputFault {
    pub part: Part,
    pub number: u32,
    pub place: u64,
}

/// Why a moment is not accepted: it is no first moment, no step leads to it, or it is the last one and the top
/// event is FALSE there.
#[derive(Clone, Copy, Debug, PartialEq, Eq)]
pub enum Why {
    First,
    Step,
    Top,
}

/// What is not accepted: a trace's file or its text, or the moment of this number, from 0; a certificate's file or its
/// text, or a line of it, from 1, by the rule of this number.
#[derive(Clone, Copy, Debug, PartialEq, Eq)]
pub enum Objection {
    Trace(InputFault),
    Cert(InputFault),
    Moment(u32, Why),
    Line(u64, u32),
}

/// What is refused of what words name, each with its one line. Words that mean no command are refused by [`words_line`].
#[derive(Clone, Copy, Debug, PartialEq, Eq)]
pub enum Refusal {
    Model(InputFault),
    Faults(InputFault),
    Top(InputFault),
    NotAccepted(Objection),
    Causes(InputFault),
    Set(InputFault),
}

/// How a run ends.
#[derive(Clone, Copy, Debug, PartialEq, Eq)]
pub enum Status {
    /// The work is done.
    Done,
    /// The work is done, and right for the traces of at most so many steps.
    Bounded(u32),
    /// The words mean no command.
    Words(WordFault),
    /// The model is refused.
    Model(InputFault),
    /// The instructions are refused.
    Faults(InputFault),
    /// The top event is refused.
    Top(InputFault),
    /// The trace or the certificate is not accepted.
    NotAccepted(Objection),
    /// A call of the desk failed.
    Desk,
    /// There was no memory.
    Memory,
    /// The common causes are refused.
    Causes(InputFault),
    /// The set of faults is refused.
    Set(InputFault),
}

impl Status {
    /// The number that the program ends with, from 0 to 10.
    pub fn exit_code(&self) -> i32
        ensures number { result ≡ number_of self.now }
        ensures within { (pos 0 ≤ℤ result) × (result ≤ℤ pos 10) }
    {
        match self {
            Status::Done => 0,
            Status::Bounded(_) => 1,
            Status::Words(_) => 2,
            Status::Model(_) => 3,
            Status::Faults(_) => 4,
            Status::Top(_) => 5,
            Status::NotAccepted(_) => 6,
            Status::Desk => 7,
            Status::Memory => 8,
            Status::Causes(_) => 9,
            Status::Set(_) => 10,
        }
    }
}

/// The status of a run whose analysis ends so.
pub fn ended_as(ending: Ending) -> Status
    ensures ends { result ≡ ended_with (told_ending ending) }
    ensures finished { IsFinished result }
{
    match ending {
        Ending::Complete => Status::Done,
        Ending::Bounded(k) => Status::Bounded(k),
    }
}

impl Refusal {
    /// The status that a run ends with after it has said this refusal.
    pub fn status(self) -> Status
        ensures { result ≡ status_of self }
    {
        match self {
            Refusal::Model(fault) => Status::Model(fault),
            Refusal::Faults(fault) => Status::Faults(fault),
            Refusal::Top(fault) => Status::Top(fault),
            Refusal::NotAccepted(objection) => Status::NotAccepted(objection),
            Refusal::Causes(fault) => Status::Causes(fault),
            Refusal::Set(fault) => Status::Set(fault),
        }
    }

    /// The line that it says, with its line feed.
    pub fn line(self, alloc: Global) -> Result<ByteList, OutOfMemory>
        ensures { IfOk result (λ line. line ≡ refusal_text self) }
    {
        match self {
            Refusal::Model(fault) => fault_line(alloc, b"refused model ", fault),
            Refusal::Faults(fault) => fault_line(alloc, b"refused faults ", fault),
            Refusal::Top(fault) => fault_line(alloc, b"refused top ", fault),
            Refusal::NotAccepted(Objection::Trace(fault)) => {
                fault_line(alloc, b"refused trace ", fault)
            }
            Refusal::NotAccepted(Objection::Cert(fault)) => {
                fault_line(alloc, b"refused cert ", fault)
            }
            Refusal::NotAccepted(Objection::Moment(number, why)) => {
                moment_line(alloc, number, why)
            }
            Refusal::NotAccepted(Objection::Line(line, rule)) => broken_line(alloc, line, rule),
            Refusal::Causes(fault) => fault_line(alloc, b"refused causes ", fault),
            Refusal::Set(fault) => fault_line(alloc, b"refused set ", fault),
        }
    }
}

/// The line of refused words, with its line feed.
pub fn words_line(alloc: Global, fault: WordFault) -> Result<ByteList, OutOfMemory>
    ensures { IfOk result (λ line. line ≡ words_text fault) }
{
    let place = u64::from(fault.place());
    refusal_line(alloc, b"refused words ", b"", fault.rule_number(), place)
}

/// The line of a refused input, after its beginning.
fn fault_line(alloc: Global, begin: &[u8], fault: InputFault) -> Result<ByteList, OutOfMemory>
    ensures { IfOk result (λ line. line ≡ begin.now ++ fault_text fault) }
{
    refusal_line(
        alloc,
        begin,
        part_name(fault.part),
        fault.number,
        fault.place,
    )
}

/// The line of a moment that is not accepted.
fn moment_line(alloc: Global, number: u32, why: Why) -> Result<ByteList, OutOfMemory>
    ensures { IfOk result (λ line. line ≡ moment_text number why) }
{
    let mut line = ByteList::from_slice(alloc, b"not accepted moment ")?;
    let text = format!(in alloc; "{number}")?;
    line.append(text.as_bytes())?;
    line.append(why_name(why))?;
    Ok(line)
}

/// The line of a rule that a certificate breaks.
fn broken_line(alloc: Global, line: u64, rule: u32) -> Result<ByteList, OutOfMemory>
    ensures { IfOk result (λ text. text ≡ line_text line rule) }
{
    let mut text = ByteList::from_slice(alloc, b"not accepted line ")?;
    let rest = format!(in alloc; "{line} rule {rule}\n")?;
    text.append(rest.as_bytes())?;
    Ok(text)
}

/// The reason as the line names it, with a space before it and the end of the line.
fn why_name(why: Why) -> &'static [u8]
    ensures { result.now ≡ why_text why }
{
    match why {
        Why::First => b" first\n",
        Why::Step => b" step\n",
        Why::Top => b" top\n",
    }
}

/// The line of a refusal: its beginning, the name of a part, the rule's number and the place.
fn refusal_line(
    alloc: Global,
    begin: &[u8],
    part: &[u8],
    number: u32,
    place: u64,
) -> Result<ByteList, OutOfMemory>
    ensures { IfOk result (λ line. line ≡ begin.now ++ (part.now ++ rule_text number place)) }
{
    let mut line = ByteList::from_slice(alloc, begin)?;
    line.append(part)?;
    append_place(alloc, &mut line, number, place)?;
    Ok(line)
}

/// Appends the rule's number and the place, and ends the line.
fn append_place(
    alloc: Global,
    line: &mut ByteList,
    number: u32,
    place: u64,
) -> Result<(), OutOfMemory>
    ensures { OnOk result (line.new ≡ line.old ++ rule_text number place) }
{
    let text = format!(in alloc; "{number} at {place}\n")?;
    line.append(text.as_bytes())
}

/// The part as the line names it, with a space after it.
fn part_name(part: Part) -> &'static [u8]
    ensures { result.now ≡ part_text part }
{
    match part {
        Part::Absent => b"absent ",
        Part::Length => b"length ",
        Part::Lex => b"lex ",
        Part::Parse => b"parse ",
        Part::Flat => b"flat ",
        Part::Kinds => b"type ",
        Part::Weave => b"weave ",
        Part::Effect => b"effect ",
        Part::Count => b"count ",
        Part::Read => b"read ",
        Part::Mark => b"mark ",
        Part::Cause => b"cause ",
    }
}
