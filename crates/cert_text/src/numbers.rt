//! Numbers and literals in the words of a line.
//!
//! [`small`], [`count`] and [`hint`] read numbers, each with its limit and without leading zeros, and [`literal`] a literal.
ghost use Rattle.std.specs.Prelude.{◌≡◌, ◌≢◌, ◌<◌, ◌≤◌, ◌^◌, IfSome, MatchOption, slice_index_or};
ghost use Rattle.std.specs.Option.{option_map};
ghost use Rattle.cert_laws.specs.LineReading.{number_in, hint_in, literal_in};
ghost use Rattle.cert_laws.specs.ExpectedLines.{small_in};
ghost use Rattle.cert_text.specs.Numerals.{IsValueOf, IsNoNumeral, literal_of};

use sat_clauses::lit::Lit;

/// The number below 2^31 that the word is in decimal digits, without leading zeros.
pub(crate) fn small(word: &[u8]) -> Option<u32>
    ensures { result ≡ small_in word.now }
{
    match decimal_value(word) {
        Some(value) => {
            if value < 1 << 31 {
                Some(value as u32)
            } else {
                None
            }
        }
        None => None,
    }
}

/// The number below 2^63 that the word is in decimal digits, without leading zeros.
pub(crate) fn count(word: &[u8]) -> Option<u64>
    ensures value { result ≡ number_in (2 ^ 63) word.now }
    ensures range { IfSome result (λ n. n < 2 ^ 63) }
{
    match decimal_value(word) {
        Some(value) => { if value < 1 << 63 { Some(value) } else { None } }
        None => None,
    }
}

/// The number below 2^63 that the word is, where it is not 0.
pub(crate) fn hint(word: &[u8]) -> Option<u64>
    ensures value { result ≡ hint_in word.now }
    ensures range { IfSome result (λ n. (1 ≤ n) × (n < 2 ^ 63)) }
{
    match count(word) {
        Some(value) => { if value == 0 { None } else { Some(value) } }
        None => None,
    }
}

/// The literal that the word is: its variable, after `-` where it is negated.
pub(crate) fn literal(word: &[u8]) -> Option<Lit>
    ensures { result ≡ literal_in word.now }
{
    match word {
        [] => None,
        [b'-', digits @ ..] => signed(digits, true),
        _ => signed(word, false),
    }
}

/// The literal of the variable that the digits are.
fn signed(digits: &[u8], negated: bool) -> Option<Lit>
    ensures { result ≡ option_map (literal_of negated) (hint_in digits.now) }
{
    match hint(digits) {
        Some(variable) => Some(Lit::new(variable, negated)),
        None => None,
    }
}

/// The number below 2^64 that the word is in decimal digits, without leading zeros.
fn decimal_value(word: &[u8]) -> Option<u64>
    ensures { result ≡ number_in (2 ^ 64) word.now }
{
    if word.is_empty() {
        return None;
    }
    if word[0] == b'+' {
        return None;
    }
    if word[0] == b'0' {
        return if word.len() == 1 { Some(0) } else { None };
    }
    value(word)
}

/// The value of a word of digits, where it is below 2^64.
fn value(word: &[u8]) -> Option<u64>
    requires { slice_index_or word.now 0 0 ≢ 43 }
    ensures { MatchOption result (IsNoNumeral word.now) (λ n. IsValueOf word.now n) }
{
    match std::str::from_utf8(word) {
        Ok(written) => written.parse::<u64>().ok(),
        Err(_) => None,
    }
}
