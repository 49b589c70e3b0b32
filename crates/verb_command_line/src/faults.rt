//! The rules of the options, in the order in which they are tried.
ghost use Rattle.std.specs.Prelude.{◌≡◌, ◌+◌, ◌*◌, ◌<◌, ◌≤◌, ◌^◌, ◌&&◌, [], map, length};
ghost use Rattle.std.specs.Option.{option_map};
ghost use Rattle.verb_command_line.specs.Table.{kind_in};
ghost use Rattle.verb_command_line.specs.WordReading.{pairs_of, value_in, fault_by, pair_fault, missing_from, same_from, has_file};
ghost use Rattle.verb_command_line.specs.WordReading.{is_file_in, option_fault};
ghost use Rattle.verb_command_line.specs.CommandView.{texts, viewed};

use crate::choice::{Choice, OptionKind};
use crate::fault::WordFault;
use crate::pairs::value_of;

/// The first rule that the words after a verb break, as pairs of these options and their values: each option and its value from left
/// to right, then the options that are missing, then the names of files.
pub(crate) fn fault_in(options: &[Choice], words: &[&str]) -> Option<WordFault>
    requires { length options.now ≤ 8 }
    ensures { result ≡ option_fault (map viewed options.now) (texts words.now) }
{
    let fault = pair_fault(options, words);
    if fault.is_some() {
        return fault;
    }
    let fault = missing(options, words);
    if fault.is_some() {
        return fault;
    }
    same_name(options, words)
}

/// The first fault of an option or its value, from left to right.
fn pair_fault(options: &[Choice], words: &[&str]) -> Option<WordFault>
    requires { length options.now ≤ 8 }
    ensures { result ≡ pair_fault (map viewed options.now) [] (texts words.now) }
{
    let mut rest = words;
    let mut at = 0;
    while let [option, value, after @ ..] = rest {
        let fault = fault_here(options, &words[..at], option, Some(value), at as u32 + 2);
        if fault.is_some() {
            return fault;
        }
        rest = after;
        at += 2;
    }
    match rest {
        [option, ..] => fault_here(options, &words[..at], option, None, at as u32 + 2),
        [] => None,
    }
}

/// The fault of an option after these words, with the word that follows it.
fn fault_here(
    options: &[Choice],
    before: &[&str],
    option: &str,
    value: Option<&str>,
    at: u32,
) -> Option<WordFault>
    requires { at + 1 < 2 ^ 32 }
    ensures { result ≡ fault_by (kind_in (map viewed options.now) option.now)
        (value_in (pairs_of (texts before.now)) option.now) (option_map (λ w. w.now) value.entry) at }
{
    let Some(kind) = kind_of(options, option) else {
        return Some(WordFault::UnknownOption { at });
    };
    if value_of(before, option).is_some() {
        return Some(WordFault::Twice { at });
    }
    match value {
        Some(value) if kind.takes(value) => None,
        Some(_) => Some(WordFault::BadNumber { at: at + 1 }),
        None => Some(WordFault::NoValue { at }),
    }
}

/// What the values of an option are, where it is one of these.
fn kind_of(options: &[Choice], name: &str) -> Option<OptionKind>
    ensures { result ≡ kind_in (map viewed options.now) name.now }
{
    for choice in options {
        if choice.name == name {
            return Some(choice.kind);
        }
    }
    None
}

/// The first option that may not be left out and is.
fn missing(options: &[Choice], words: &[&str]) -> Option<WordFault>
    requires { length options.now ≤ 8 }
    ensures { result ≡ missing_from 1 (map viewed options.now) (pairs_of (texts words.now)) }
{
    for (i, choice) in options.iter().enumerate() {
        if choice.required && value_of(words, choice.name).is_none() {
            return Some(WordFault::Missing { at: i as u32 + 1 });
        }
    }
    None
}

/// The first file that has the name of an earlier one.
fn same_name(options: &[Choice], words: &[&str]) -> Option<WordFault>
    requires { length words.now ≤ 16 }
    ensures { result ≡ same_from (map viewed options.now) [] (pairs_of (texts words.now)) }
{
    let mut rest = words;
    let mut at = 0;
    while let [option, value, after @ ..] = rest {
        if repeats_file(options, &words[..at], option, value) {
            return Some(WordFault::SameName { at: at as u32 + 3 });
        }
        rest = after;
        at += 2;
    }
    None
}

/// Whether an option with this value is a file that has the name of one of these words'.
fn repeats_file(options: &[Choice], before: &[&str], option: &str, value: &str) -> bool
    ensures { result ≡ (is_file_in (map viewed options.now) option.now
        && has_file (map viewed options.now) (pairs_of (texts before.now)) value.now) }
{
    is_file(options, option) && names_file(options, before, value)
}

/// Whether the words give a file this name.
fn names_file(options: &[Choice], words: &[&str], name: &str) -> bool
    ensures { result ≡ has_file (map viewed options.now) (pairs_of (texts words.now)) name.now }
{
    let mut rest = words;
    while let [option, value, after @ ..] = rest {
        if is_file(options, option) && *value == name {
            return true;
        }
        rest = after;
    }
    false
}

/// Whether the values of an option are files.
fn is_file(options: &[Choice], option: &str) -> bool
    ensures { result ≡ is_file_in (map viewed options.now) option.now }
{
    match kind_of(options, option) {
        Some(kind) => kind.is_file(),
        None => false,
    }
}
