//! What a line of a certificate says.
//!
//! There is a function for each form of line: [`version_in`], [`numbers_in`], [`count_in`], [`set_in`], [`clause_in`] and [`step_in`].
//! Each gives what a line of its form says, and nothing for another line. `reading` asks them for one line after another.
ghost use Rattle.std.specs.Prelude.{◌≡◌, ℕ, ◌∷◌, IfOk, Option, Some, MatchOption};
ghost use Rattle.std.specs.Option.{option_map};
ghost use Rattle.cert_laws.specs.LineReading.{count_in, set_in, clause_in, step_in, each_in, literal_in, hint_in, one_number, step_of};
ghost use Rattle.cert_laws.specs.LineReading.{step_of_words};
ghost use Rattle.cert_laws.specs.ExpectedLines.{small_in, numbers_in, numbers_of_words, size_of};
ghost use Rattle.cert_laws.specs.CertificateText.{version_two};
ghost use Rattle.cert_text.specs.LineWords.{words_after};
ghost use Rattle.cert_text.specs.Expectations.{told_version, told_numbers};
ghost use Rattle.cert_text.specs.CertificateReading.{version_in};
ghost use Rattle.cert_text.specs.Words.{LacksNumber, IsNumberThen, LacksName, one_small, after_bits, after_faults};

use crate::numbers::{count, hint, literal, small};
use crate::words::{after_word, next_word};
use base_values::{FaultSet, Items, OutOfMemory};
use sat_clauses::clause::Clause;
use sat_clauses::lit::Lit;
use sat_clauses::step::{HintList, Step};
use std::alloc::Global;

/// The version of a text: 2 gives the size, and 1 has the number of faults for it.
#[derive(Clone, Copy, Debug, PartialEq, Eq)]
pub(crate) enum Version {
    One,
    Two,
}

/// The numbers of bits and faults, and the size.
#[derive(Clone, Copy, Debug, PartialEq, Eq)]
pub(crate) struct HeadNumbers {
    pub(crate) bits: u32,
    pub(crate) faults: u32,
    pub(crate) size: u32,
}

/// The version that the first line names.
pub(crate) fn version_in(line: &[u8]) -> Option<Version>
    ensures { result ≡ version_in line.now }
{
    if line == b"xsap-certificate 1".as_slice() {
        Some(Version::One)
    } else if line == b"xsap-certificate 2".as_slice() {
        Some(Version::Two)
    } else {
        None
    }
}

/// The count in a line of a name and a count.
pub(crate) fn count_in(line: &[u8], name: &[u8]) -> Option<u64>
    ensures { result ≡ count_in name.now line.now }
{
    match after_word(line, name) {
        Some(words) => only_count(words),
        None => None,
    }
}

/// The count that is the only word.
fn only_count(words: &[u8]) -> Option<u64>
    ensures { result ≡ one_number (words_after words.now) }
{
    match next_word(words) {
        Some((word, more)) => { if more.is_empty() { count(word) } else { None } }
        None => None,
    }
}

/// The faults in the line of a set.
pub(crate) fn set_in(alloc: Global, line: &[u8]) -> Result<Option<FaultSet>, OutOfMemory>
    ensures { IfOk result (λ said. said ≡ set_in line.now) }
{
    match after_word(line, b"set") {
        Some(words) => faults_in(alloc, words),
        None => Ok(None),
    }
}

/// The faults that these words are.
fn faults_in(alloc: Global, words: &[u8]) -> Result<Option<FaultSet>, OutOfMemory>
    ensures { IfOk result (λ said. said ≡ each_in small_in (words_after words.now)) }
{
    let mut set = FaultSet::new(alloc);
    let mut rest = words;
    while let Some((word, more)) = next_word(rest) {
        match small(word) {
            Some(fault) => set.push(fault)?,
            None => return Ok(None),
        }
        rest = more;
    }
    Ok(Some(set))
}

/// The literals in the line of a clause.
pub(crate) fn clause_in(alloc: Global, line: &[u8]) -> Result<Option<Clause>, OutOfMemory>
    ensures { IfOk result (λ said. said ≡ clause_in line.now) }
{
    match after_word(line, b"clause") {
        Some(words) => literals_in(alloc, words),
        None => Ok(None),
    }
}

/// The literals that these words are.
fn literals_in(alloc: Global, words: &[u8]) -> Result<Option<Clause>, OutOfMemory>
    ensures { IfOk result (λ said. said ≡ each_in literal_in (words_after words.now)) }
{
    let mut lits = Items::new(alloc);
    let mut rest = words;
    while let Some((word, more)) = next_word(rest) {
        match literal(word) {
            Some(lit) => lits.push(lit)?,
            None => return Ok(None),
        }
        rest = more;
    }
    Ok(Some(Clause::from_lits(alloc, lits.as_slice())?))
}

/// The clause and the hints in the line of a step.
pub(crate) fn step_in(alloc: Global, line: &[u8]) -> Result<Option<Step>, OutOfMemory>
    ensures { IfOk result (λ said. said ≡ step_in line.now) }
{
    match after_word(line, b"step") {
        Some(words) => clause_and_hints(alloc, words),
        None => Ok(None),
    }
}

/// The clause before the first colon and the hints after it.
fn clause_and_hints(alloc: Global, words: &[u8]) -> Result<Option<Step>, OutOfMemory>
    ensures { IfOk result (λ said. said ≡ step_of_words (words_after words.now)) }
{
    let mut lits = Items::new(alloc);
    let mut rest = words;
    while let Some((word, more)) = next_word(rest) {
        if word == b":".as_slice() {
            return with_hints(alloc, lits.as_slice(), more);
        }
        match literal(word) {
            Some(lit) => lits.push(lit)?,
            None => return Ok(None),
        }
        rest = more;
    }
    Ok(None)
}

/// The step of these literals and of the hints that these words are.
fn with_hints(alloc: Global, lits: &[Lit], words: &[u8]) -> Result<Option<Step>, OutOfMemory>
    ensures { IfOk result (λ said. said ≡ step_of (Some lits.now) (each_in hint_in (words_after words.now))) }
{
    match hints_in(alloc, words)? {
        Some(hints) => {
            let clause = Clause::from_lits(alloc, lits)?;
            Ok(Some(Step { clause, hints }))
        }
        None => Ok(None),
    }
}

/// The hints that these words are.
fn hints_in(alloc: Global, words: &[u8]) -> Result<Option<HintList>, OutOfMemory>
    ensures { IfOk result (λ said. said ≡ each_in hint_in (words_after words.now)) }
{
    let mut hints = HintList::new(alloc);
    let mut rest = words;
    while let Some((word, more)) = next_word(rest) {
        match hint(word) {
            Some(number) => hints.push(number)?,
            None => return Ok(None),
        }
        rest = more;
    }
    Ok(Some(hints))
}

/// The numbers that the second line gives.
pub(crate) fn numbers_in(version: Version, line: &[u8]) -> Option<HeadNumbers>
    ensures { option_map told_numbers result ≡ numbers_in (told_version version) line.now }
{
    match after_word(line, b"bits") {
        Some(words) => numbers_of(version, words),
        None => None,
    }
}

/// The numbers that the words after `bits` give.
fn numbers_of(version: Version, words: &[u8]) -> Option<HeadNumbers>
    ensures { option_map told_numbers result ≡ numbers_of_words (told_version version) (words_after words.now) }
{
    match number_then(words) {
        Some((bits, rest)) => faults_and_size(version, bits, rest),
        None => None,
    }
}

/// The numbers that the words after the number of bits give.
fn faults_and_size(version: Version, bits: u32, words: &[u8]) -> Option<HeadNumbers>
    ensures { option_map told_numbers result ≡ after_bits (told_version version) bits (words_after words.now) }
{
    match after_name(words, b"faults") {
        Some(rest) => with_faults(version, bits, rest),
        None => None,
    }
}

/// The numbers that the words after `faults` give.
fn with_faults(version: Version, bits: u32, words: &[u8]) -> Option<HeadNumbers>
    ensures { option_map told_numbers result ≡ after_faults (told_version version) bits (words_after words.now) }
{
    match number_then(words) {
        Some((faults, rest)) => match size_in(version, faults, rest) {
            Some(size) => Some(HeadNumbers { bits, faults, size }),
            None => None,
        },
        None => None,
    }
}

/// The size that the words after the number of faults give.
fn size_in(version: Version, faults: u32, words: &[u8]) -> Option<u32>
    ensures { result ≡ size_of (told_version version) (Some faults) (words_after words.now) }
{
    match version {
        Version::One => { if words.is_empty() { Some(faults) } else { None } }
        Version::Two => named_size(words),
    }
}

/// The size after its name.
fn named_size(words: &[u8]) -> Option<u32>
    ensures { (faults : Option ℕ) → result ≡ size_of version_two faults (words_after words.now) }
{
    match after_name(words, b"size") {
        Some(rest) => only_number(rest),
        None => None,
    }
}

/// The number that is the only word.
fn only_number(words: &[u8]) -> Option<u32>
    ensures { result ≡ one_small (words_after words.now) }
{
    match next_word(words) {
        Some((word, more)) => { if more.is_empty() { small(word) } else { None } }
        None => None,
    }
}

/// The number that the first word is, and what stands after it.
fn number_then(words: &[u8]) -> Option<(u32, &[u8])>
    ensures { MatchOption result (LacksNumber (words_after words.now))
        (λ p. IsNumberThen (words_after words.now) p.0 (words_after p.1.now)) }
{
    match next_word(words) {
        Some((word, more)) => match small(word) {
            Some(number) => Some((number, more)),
            None => None,
        },
        None => None,
    }
}

/// What stands after the first word, where that is this one.
fn after_name<'a>(words: &'a [u8], name: &[u8]) -> Option<&'a [u8]>
    ensures { MatchOption result (LacksName (words_after words.now) name.now) (λ rest. words_after words.now
        ≡ name.now ∷ words_after rest.now) }
{
    match next_word(words) {
        Some((word, more)) => { if word == name { Some(more) } else { None } }
        None => None,
    }
}
