//! Sets of numbers in a word: at least two, rising, with one space between.
ghost use Rattle.std.specs.Prelude.{◌≡◌, ◌∷◌, ◌≤◌, nat_lt, length, IfOk};
ghost use Rattle.std.specs.Option.{option_map};
ghost use Rattle.verb_command_line.specs.Sets.{words_of, numbers_of, IsSet};
ghost use Rattle.verb_command_line.specs.WordReading.{rises as rises_to, is_rising, is_set_text, same_number as are_same};
ghost use Rattle.verb_command_line.specs.WordReading.{has_number as has_number_in, words_left, left_length, smalls};

use crate::number::{read_number, small_number};
use base_values::OutOfMemory;
use base_values::limits::MOST_FAULTS;
use std::alloc::Global;

/// Whether the word is at least two rising numbers from 1 to `MOST_FAULTS` with one space between.
pub(crate) fn is_set(word: &str) -> bool
    ensures { result ≡ is_set_text word.now }
{
    has_two(word) && are_rising(word)
}

/// Whether there is more than one word.
fn has_two(text: &str) -> bool
    ensures { result ≡ nat_lt 1 (length (words_of text.now)) }
{
    let (_front, after) = first_of(text);
    after.is_some()
}

/// Whether the words are rising numbers from 1 to `MOST_FAULTS`.
fn are_rising(text: &str) -> bool
    ensures { result ≡ is_rising 0 (words_of text.now) }
{
    let mut last = 0;
    let mut rest = Some(text);
    while let Some(words) = rest {
        let (front, after) = first_of(words);
        match read_number(front) {
            Some(next) if rises(last, next) => last = next,
            _ => return false,
        }
        rest = after;
    }
    true
}

/// Whether the number is greater than the last one, and at most `MOST_FAULTS`.
fn rises(last: u64, next: u64) -> bool
    ensures { result ≡ rises_to last next }
{
    last < next && next <= MOST_FAULTS as u64
}

/// Whether one of the words spells the number.
pub(crate) fn has_number(set: &str, wanted: Option<u64>) -> bool
    ensures { result ≡ has_number_in (words_of set.now) wanted }
{
    let mut rest = Some(set);
    while let Some(words) = rest {
        let (front, after) = first_of(words);
        if is_same(read_number(front), wanted) {
            return true;
        }
        rest = after;
    }
    false
}

/// Whether both are numbers, and one.
pub(crate) fn is_same(one: Option<u64>, other: Option<u64>) -> bool
    ensures { result ≡ are_same one other }
{
    match (one, other) {
        (Some(one), Some(other)) => one == other,
        _ => false,
    }
}

/// The numbers of a set.
pub fn set_numbers(alloc: Global, set: &str) -> Result<Vec<u32>, OutOfMemory>
    ensures { IsSet set.now → IfOk result (λ numbers. numbers.items ≡ numbers_of set.now) }
{
    spelled_numbers(alloc, set)
}

/// The numbers that words spell, where they spell some.
fn spelled_numbers(alloc: Global, set: &str) -> Result<Vec<u32>, OutOfMemory>
    ensures { IfOk result (λ numbers. numbers.items ≡ smalls (words_of set.now)) }
{
    let mut numbers = Vec::new(alloc);
    let mut rest = Some(set);
    while let Some(words) = rest {
        let (front, after) = first_of(words);
        if let Some(next) = small_number(front) {
            numbers.push(next)?;
        }
        rest = after;
    }
    Ok(numbers)
}

/// The word before the first space, and what stands after that, where there is a space.
fn first_of(text: &str) -> (&str, Option<&str>)
    ensures words { words_of text.now ≡ result.0.now ∷ words_left (option_map (λ t. t.now) result.1) }
    ensures shorter { left_length (option_map (λ t. t.now) result.1) ≤ length text.now }
{
    match text.split_once(' ') {
        Some((front, after)) => (front, Some(after)),
        None => (text, None),
    }
}
