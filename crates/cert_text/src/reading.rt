//! The lines of a certificate read one after another.
//!
//! The main function is [`CertificateReading::take`]: it reads one more line, as what the lines before it make it, and keeps what it says.
//! [`Expect`] says what the next line is to be, with how many of its kind come after it.
ghost use Rattle.std.specs.Prelude.{◌≡◌, IfErr, OnOk, Some, codes};
ghost use Rattle.std.specs.Option.{option_map};
ghost use Rattle.cut_text_laws.specs.Lines.{IsLine};
ghost use Rattle.cert_laws.specs.LineReading.{count_in, set_in, clause_in, step_in};
ghost use Rattle.cert_laws.specs.ExpectedLines.{numbers_in, part_word};
ghost use Rattle.cert_text.specs.Expectations.{told_version, told_part};
ghost use Rattle.cert_text.specs.Faults.{IsRefused, fault_at};
ghost use Rattle.cert_text.specs.CertificateReading.{sets_left, clauses_left, steps_left, version_in, then_expecting, with_numbers};
ghost use Rattle.cert_text.specs.CertificateReading.{with_set, text_left, with_line, with_clause, with_step, end_in, read_line, unread};
ghost use Rattle.cert_text.specs.declared.reading.Expect.TheVariants as expect;
ghost use Rattle.cert_text.specs.declared.reading.LineRefusal.TheVariants as refusal;

use crate::certificate::{CertFault, Certificate, TextList};
use crate::line_list::LineList;
use crate::lines::{
    HeadNumbers, Version, clause_in, count_in, numbers_in, set_in, step_in, version_in,
};
use crate::packed::PackedSteps;
use base_values::{OutOfMemory, SetList};
use sat_clauses::clause::ClauseList;
use sat_clauses::step::Step;
use std::alloc::Global;

/// The three derivations.
#[derive(Clone, Copy, Debug, PartialEq, Eq)]
pub(crate) enum TextPart {
    First,
    Next,
    Bad,
}

/// What the next line is to be; with a set, a text line, a clause or a step, how many of them come after it.
#[derive(Clone, Copy, Debug, PartialEq, Eq)]
pub(crate) enum Expect {
    Version,
    Numbers(Version),
    SetsCount,
    SetLine(u64),
    TraceCount(u64),
    TextLine(u64, u64),
    ClausesCount,
    ClauseLine(u64),
    StepsCount(TextPart),
    StepLine(TextPart, u64),
    End,
    NoLine,
}

/// Why a line is not taken.
#[derive(Clone, Copy, Debug, PartialEq, Eq)]
pub(crate) enum LineRefusal {
    BadLine,
    OutOfMemory,
}

impl LineRefusal {
    /// The fault of the line of this number.
    pub(crate) fn at_line(self, number: u64) -> CertFault
        ensures { result ≡ fault_at self number }
    {
        match self {
            LineRefusal::BadLine => CertFault::BadLine(number),
            LineRefusal::OutOfMemory => CertFault::OutOfMemory,
        }
    }
}

impl From<OutOfMemory> for LineRefusal {
    ghost use Rattle.cert_text.specs.declared.reading.LineRefusal.TheVariants as refusal;

    ghost from_gives = { λ _ made. made ≡ refusal.OutOfMemory };

    fn from(_refused: OutOfMemory) -> LineRefusal {
        LineRefusal::OutOfMemory
    }
}

/// What the lines so far gave, the lines of the trace that is being read, and what the next line is to be.
#[derive(Drop)]
pub(crate) struct CertificateReading {
    pub(crate) expect: Expect,
    pub(crate) trace: LineList,
    pub(crate) certificate: Certificate,
}

impl CertificateReading {
    /// Before the first line.
    pub(crate) fn new(alloc: Global) -> CertificateReading
        ensures { result ≡ unread }
    {
        CertificateReading {
            expect: Expect::Version,
            trace: LineList::new(alloc),
            certificate: Certificate {
                bits: 0,
                faults: 0,
                size: 0,
                sets: SetList::new(alloc),
                traces: TextList::new(alloc),
                invariant: ClauseList::new(alloc),
                first: PackedSteps::new(alloc),
                next: PackedSteps::new(alloc),
                bad: PackedSteps::new(alloc),
            },
        }
    }

    /// Reads one more line, which has no line feed in it.
    pub(crate) fn take(&mut self, alloc: Global, line: &[u8]) -> Result<(), LineRefusal>
        requires { IsLine line.now }
        ensures ok { OnOk result (read_line self.old line.now ≡ Some self.new) }
        ensures err { IfErr result (IsRefused (read_line self.old line.now)) }
    {
        match self.expect {
            Expect::Version => self.take_version(line),
            Expect::Numbers(version) => self.take_numbers(version, line),
            Expect::SetsCount => self.take_sets_count(line),
            Expect::SetLine(left) => self.take_set(alloc, left, line),
            Expect::TraceCount(left) => self.take_trace_count(alloc, left, line),
            Expect::TextLine(more, left) => self.take_text(alloc, more, left, line),
            Expect::ClausesCount => self.take_clauses_count(line),
            Expect::ClauseLine(left) => self.take_clause(alloc, left, line),
            Expect::StepsCount(part) => self.take_steps_count(part, line),
            Expect::StepLine(part, left) => self.take_step(alloc, part, left, line),
            Expect::End => self.take_end(line),
            Expect::NoLine => Err(LineRefusal::BadLine),
        }
    }

    /// Reads the version.
    fn take_version(&mut self, line: &[u8]) -> Result<(), LineRefusal>
        ensures ok { OnOk result (option_map (λ v. then_expecting self.old (expect.Numbers v)) (version_in line.now) ≡ Some self.new) }
        ensures err { IfErr result (IsRefused (option_map (λ v. then_expecting self.old (expect.Numbers v)) (version_in line.now))) }
    {
        match version_in(line) {
            Some(version) => {
                self.expect = Expect::Numbers(version);
                Ok(())
            }
            None => Err(LineRefusal::BadLine),
        }
    }

    /// Reads the numbers.
    fn take_numbers(&mut self, version: Version, line: &[u8]) -> Result<(), LineRefusal>
        ensures ok { OnOk result (option_map (with_numbers self.old) (numbers_in (told_version version) line.now) ≡ Some self.new) }
        ensures err { IfErr result (IsRefused (option_map (with_numbers self.old) (numbers_in (told_version version) line.now))) }
    {
        match numbers_in(version, line) {
            Some(numbers) => {
                self.certificate.bits = numbers.bits;
                self.certificate.faults = numbers.faults;
                self.certificate.size = numbers.size;
                self.expect = Expect::SetsCount;
                Ok(())
            }
            None => Err(LineRefusal::BadLine),
        }
    }

    /// Reads the number of sets.
    fn take_sets_count(&mut self, line: &[u8]) -> Result<(), LineRefusal>
        ensures ok { OnOk result (option_map (λ n. then_expecting self.old (sets_left n)) (count_in (codes "sets") line.now)
            ≡ Some self.new) }
        ensures err { IfErr result
            (IsRefused (option_map (λ n. then_expecting self.old (sets_left n)) (count_in (codes "sets") line.now))) }
    {
        match count_in(line, b"sets") {
            Some(count) => {
                self.expect = sets_left(count);
                Ok(())
            }
            None => Err(LineRefusal::BadLine),
        }
    }

    /// Reads and keeps a set.
    fn take_set(&mut self, alloc: Global, left: u64, line: &[u8]) -> Result<(), LineRefusal>
        ensures ok { OnOk result (option_map (with_set left self.old) (set_in line.now) ≡ Some self.new) }
        ensures err { IfErr result (IsRefused (option_map (with_set left self.old) (set_in line.now))) }
    {
        match set_in(alloc, line)? {
            Some(set) => {
                self.certificate.sets.push(set)?;
                self.expect = Expect::TraceCount(left);
                Ok(())
            }
            None => Err(LineRefusal::BadLine),
        }
    }

    /// Reads the number of lines of a trace's text.
    fn take_trace_count(&mut self, alloc: Global, left: u64, line: &[u8]) -> Result<(), LineRefusal>
        ensures ok { OnOk result (option_map (λ n. text_left n left self.old) (count_in (codes "trace") line.now) ≡ Some self.new) }
        ensures err { IfErr result (IsRefused (option_map (λ n. text_left n left self.old) (count_in (codes "trace") line.now))) }
    {
        match count_in(line, b"trace") {
            Some(count) => {
                self.leave_text(alloc, count, left)?;
                Ok(())
            }
            None => Err(LineRefusal::BadLine),
        }
    }

    /// Keeps a line of a trace's text.
    fn take_text(
        &mut self,
        alloc: Global,
        more: u64,
        left: u64,
        line: &[u8],
    ) -> Result<(), LineRefusal>
        requires { IsLine line.now }
        ensures ok { OnOk result (with_line more left self.old line.now ≡ self.new) }
        ensures err { IfErr result (λ made. made ≡ refusal.OutOfMemory) }
    {
        self.trace.push(line)?;
        self.leave_text(alloc, more, left)?;
        Ok(())
    }

    /// Goes on where so many lines of a trace's text are left; at its end the text is kept.
    fn leave_text(&mut self, alloc: Global, more: u64, left: u64) -> Result<(), OutOfMemory>
        ensures { OnOk result (text_left more left self.old ≡ self.new) }
    {
        if more > 0 {
            self.expect = Expect::TextLine(more - 1, left);
            return Ok(());
        }
        let text = std::mem::replace(&mut self.trace, LineList::new(alloc));
        self.certificate.traces.push(text)?;
        self.expect = sets_left(left);
        Ok(())
    }

    /// Reads the number of clauses.
    fn take_clauses_count(&mut self, line: &[u8]) -> Result<(), LineRefusal>
        ensures ok { OnOk result (option_map (λ n. then_expecting self.old (clauses_left n)) (count_in (codes "invariant") line.now)
            ≡ Some self.new) }
        ensures err { IfErr result
            (IsRefused (option_map (λ n. then_expecting self.old (clauses_left n)) (count_in (codes "invariant") line.now))) }
    {
        match count_in(line, b"invariant") {
            Some(count) => {
                self.expect = clauses_left(count);
                Ok(())
            }
            None => Err(LineRefusal::BadLine),
        }
    }

    /// Reads and keeps a clause.
    fn take_clause(&mut self, alloc: Global, left: u64, line: &[u8]) -> Result<(), LineRefusal>
        ensures ok { OnOk result (option_map (with_clause left self.old) (clause_in line.now) ≡ Some self.new) }
        ensures err { IfErr result (IsRefused (option_map (with_clause left self.old) (clause_in line.now))) }
    {
        match clause_in(alloc, line)? {
            Some(clause) => {
                self.certificate.invariant.push(clause)?;
                self.expect = clauses_left(left);
                Ok(())
            }
            None => Err(LineRefusal::BadLine),
        }
    }

    /// Reads the number of a derivation's steps.
    fn take_steps_count(&mut self, part: TextPart, line: &[u8]) -> Result<(), LineRefusal>
        ensures ok { OnOk result
            (option_map (λ n. then_expecting self.old (steps_left part n)) (count_in (part_word (told_part part)) line.now)
            ≡ Some self.new) }
        ensures err { IfErr result
            (IsRefused (option_map (λ n. then_expecting self.old (steps_left part n))
            (count_in (part_word (told_part part)) line.now))) }
    {
        match steps_count(part, line) {
            Some(count) => {
                self.expect = steps_left(part, count);
                Ok(())
            }
            None => Err(LineRefusal::BadLine),
        }
    }

    /// Reads and keeps a step.
    fn take_step(
        &mut self,
        alloc: Global,
        part: TextPart,
        left: u64,
        line: &[u8],
    ) -> Result<(), LineRefusal>
        ensures ok { OnOk result (option_map (with_step part left self.old) (step_in line.now) ≡ Some self.new) }
        ensures err { IfErr result (IsRefused (option_map (with_step part left self.old) (step_in line.now))) }
    {
        match step_in(alloc, line)? {
            Some(step) => {
                self.keep_step(part, left, step)?;
                Ok(())
            }
            None => Err(LineRefusal::BadLine),
        }
    }

    /// Keeps a step of a derivation of which so many are left.
    fn keep_step(&mut self, part: TextPart, left: u64, step: Step) -> Result<(), OutOfMemory>
        ensures { OnOk result (with_step part left self.old step ≡ self.new) }
    {
        match part {
            TextPart::First => self.certificate.first.push(&step)?,
            TextPart::Next => self.certificate.next.push(&step)?,
            TextPart::Bad => self.certificate.bad.push(&step)?,
        }
        self.expect = steps_left(part, left);
        Ok(())
    }

    /// Reads the last line.
    fn take_end(&mut self, line: &[u8]) -> Result<(), LineRefusal>
        ensures ok { OnOk result (option_map (then_expecting self.old) (end_in line.now) ≡ Some self.new) }
        ensures err { IfErr result (IsRefused (option_map (then_expecting self.old) (end_in line.now))) }
    {
        if line == b"end".as_slice() {
            self.expect = Expect::NoLine;
            Ok(())
        } else {
            Err(LineRefusal::BadLine)
        }
    }
}

/// The number in the line that begins a derivation.
fn steps_count(part: TextPart, line: &[u8]) -> Option<u64>
    ensures { result ≡ count_in (part_word (told_part part)) line.now }
{
    match part {
        TextPart::First => count_in(line, b"first"),
        TextPart::Next => count_in(line, b"next"),
        TextPart::Bad => count_in(line, b"bad"),
    }
}

/// What comes next where so many sets are left.
fn sets_left(left: u64) -> Expect
    ensures { result ≡ sets_left left }
{
    if left > 0 {
        Expect::SetLine(left - 1)
    } else {
        Expect::ClausesCount
    }
}

/// What comes next where so many clauses are left.
fn clauses_left(left: u64) -> Expect
    ensures { result ≡ clauses_left left }
{
    if left > 0 {
        Expect::ClauseLine(left - 1)
    } else {
        Expect::StepsCount(TextPart::First)
    }
}

/// What comes next where so many steps of a derivation are left.
fn steps_left(part: TextPart, left: u64) -> Expect
    ensures { result ≡ steps_left part left }
{
    if left > 0 {
        return Expect::StepLine(part, left - 1);
    }
    match part {
        TextPart::First => Expect::StepsCount(TextPart::Next),
        TextPart::Next => Expect::StepsCount(TextPart::Bad),
        TextPart::Bad => Expect::End,
    }
}
