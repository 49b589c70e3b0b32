//! The two faults of a set, which are in it and differ.
ghost use Rattle.std.specs.Prelude.{◌≡◌, ◌≤◌, [], length};
ghost use Rattle.verb_command_line.specs.WordReading.{pairs_of, is_of_pair as is_one_of_pair, is_outside as is_outside_by, outside_from};
ghost use Rattle.verb_command_line.specs.WordReading.{set_fault};
ghost use Rattle.verb_command_line.specs.CommandView.{texts};

use crate::fault::WordFault;
use crate::number::read_number;
use crate::pairs::{text, value_of};
use crate::set::{has_number, is_same};

/// The first of the two faults, by its place in the words, that is not in the set, or is the second where both are one.
pub(crate) fn not_in_set(words: &[&str]) -> Option<WordFault>
    requires { length words.now ≤ 16 }
    ensures { result ≡ set_fault (pairs_of (texts words.now)) }
{
    let set = value_of(words, "--set")?;
    first_outside(words, set, text(words, "--first"))
}

/// The first of the two faults that is not in the set, or is the second and the first too.
fn first_outside(words: &[&str], set: &str, first: &str) -> Option<WordFault>
    requires { length words.now ≤ 16 }
    ensures { result ≡ outside_from set.now first.now [] (pairs_of (texts words.now)) }
{
    let mut rest = words;
    let mut at: usize = 0;
    while let [option, value, after @ ..] = rest {
        if is_outside(option, value, set, first) {
            return Some(WordFault::NotInSet { at: at as u32 + 3 });
        }
        rest = after;
        at += 2;
    }
    None
}

/// Whether an option with this value is one of two faults, and not in the set, or is the second and the first too.
fn is_outside(option: &str, value: &str, set: &str, first: &str) -> bool
    ensures { result ≡ is_outside_by set.now first.now option.now value.now }
{
    if is_of_pair(option) && !has_number(set, read_number(value)) {
        return true;
    }
    option == "--second" && is_same(read_number(first), read_number(value))
}

/// Whether the option is one of the two faults.
fn is_of_pair(option: &str) -> bool
    ensures { result ≡ is_one_of_pair option.now }
{
    option == "--first" || option == "--second"
}
