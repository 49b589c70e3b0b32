//! Options and their values among words: an option, its value, and so on.
ghost use Rattle.std.specs.Prelude.{◌≡◌};
ghost use Rattle.std.specs.Option.{option_map};
ghost use Rattle.verb_command_line.specs.WordReading.{pairs_of, value_in, text_in, number_at, small_number_at};
ghost use Rattle.verb_command_line.specs.CommandView.{texts};

use crate::number::small_number;

/// The value that the words give an option.
pub(crate) fn value_of<'a>(words: &[&'a str], option: &str) -> Option<&'a str>
    ensures { option_map (λ w. w.now) result ≡ value_in (pairs_of (texts words.now)) option.now }
{
    let mut rest = words;
    while let [name, value, after @ ..] = rest {
        if *name == option {
            return Some(value);
        }
        rest = after;
    }
    None
}

/// The text that the words give an option, empty where they give none.
pub(crate) fn text<'a>(words: &[&'a str], option: &str) -> &'a str
    ensures { result.now ≡ text_in (pairs_of (texts words.now)) option.now }
{
    value_of(words, option).unwrap_or("")
}

/// The number that the words give an option, where they give one of 32 bits.
pub(crate) fn optional_number(words: &[&str], option: &str) -> Option<u32>
    ensures { result ≡ small_number_at (pairs_of (texts words.now)) option.now }
{
    let value = value_of(words, option)?;
    small_number(value)
}

/// The number that the words give an option, 0 where they give none.
pub(crate) fn number_given(words: &[&str], option: &str) -> u32
    ensures { result ≡ number_at (pairs_of (texts words.now)) option.now }
{
    optional_number(words, option).unwrap_or(0)
}
