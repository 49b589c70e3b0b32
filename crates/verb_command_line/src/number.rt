//! Numbers in words: 1 to 10 decimal digits.
ghost use Rattle.std.specs.Prelude.{◌≡◌};
ghost use Rattle.std.specs.Char.{is_ascii_digit};
ghost use Rattle.std.specs.List.{list_all};
ghost use Rattle.verb_command_line.specs.WordReading.{number_in, small_number_in, is_numeral};

/// The number of a word of 1 to 10 decimal digits.
pub(crate) fn read_number(word: &str) -> Option<u64>
    ensures { result ≡ number_in word.now }
{
    if !is_number(word) {
        return None;
    }
    word.parse().ok()
}

/// The number of a word of 1 to 10 decimal digits, where it has 32 bits.
pub(crate) fn small_number(word: &str) -> Option<u32>
    ensures { result ≡ small_number_in word.now }
{
    let number = read_number(word)?;
    u32::try_from(number).ok()
}

/// Whether the word is 1 to 10 decimal digits.
fn is_number(word: &str) -> bool
    ensures { result ≡ is_numeral word.now }
{
    if word.is_empty() || word.len() > 10 {
        return false;
    }
    is_all_digits(word)
}

fn is_all_digits(word: &str) -> bool
    ensures { result ≡ list_all is_ascii_digit word.now }
{
    word.bytes().all(|byte| byte.is_ascii_digit())
}
