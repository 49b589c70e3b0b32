//! Marks that are probabilities, in units of 10^-18.
//!
//! The main function is [`units_of_mark`]; what is no decimal number from 0 to 1 has no units.
ghost use Rattle.std.specs.Prelude.{◌≡◌, ◌↔◌, ◌<◌, ◌≤◌, ◌-◌, ◌*◌, ◌^◌, true, length, codes, Some, None, [], ◌∷◌, IfSome, IsTrue};
ghost use Rattle.std.specs.List.{list_all};
ghost use Rattle.smv_lexer.specs.Tokens.{number_of};
ghost use Rattle.smv_language.specs.Texts.{same_text};
ghost use Rattle.fault_odds.specs.Units.{one_in_units, is_digit as is_digit_byte, is_fraction as is_fraction_text};
ghost use Rattle.fault_odds.specs.Units.{whole_units as whole_units_of, at_most_one as at_most_one_of, with_fraction as with_fraction_of};
ghost use Rattle.fault_odds.specs.Units.{units_of};

use base_values::Name;

/// How many units make one.
const ONE: u64 = 1_000_000_000_000_000_000;

/// The units of a mark by the texts of its tokens: `0` or `1`, alone or with a point and one to eighteen digits
/// after it, and at most one. None where the mark is no probability.
pub(crate) fn units_of_mark(mark: &[Name]) -> Option<u64>
    ensures { result ≡ units_of mark.now }
{
    match mark {
        [whole] => whole_units(whole.text()),
        [whole, point, digits] => with_digits(whole.text(), point.text(), digits.text()),
        _ => None,
    }
}

/// The units of a whole part, a point and digits.
fn with_digits(whole: &[u8], point: &[u8], digits: &[u8]) -> Option<u64>
    ensures { result ≡ units_of (whole.now ∷ point.now ∷ digits.now ∷ []) }
{
    if is_point(point) && is_fraction(digits) {
        with_fraction(whole_units(whole), digits)
    } else {
        None
    }
}

/// Whether both texts have the same bytes.
fn is_equal(text: &[u8], other: &[u8]) -> bool
    ensures { IsTrue result ↔ (text.now ≡ other.now) }
{
    text == other
}

/// Whether the text is `.`.
fn is_point(text: &[u8]) -> bool
    ensures { result ≡ same_text text.now (codes ".") }
{
    is_equal(text, b".")
}

/// Whether the text is `0`.
fn is_zero(text: &[u8]) -> bool
    ensures { result ≡ same_text text.now (codes "0") }
{
    is_equal(text, b"0")
}

/// Whether the text is `1`.
fn is_one(text: &[u8]) -> bool
    ensures { result ≡ same_text text.now (codes "1") }
{
    is_equal(text, b"1")
}

/// The units of `0` and of `1`.
fn whole_units(text: &[u8]) -> Option<u64>
    ensures { result ≡ whole_units_of text.now }
{
    if is_zero(text) {
        Some(0)
    } else if is_one(text) {
        Some(ONE)
    } else {
        None
    }
}

/// Whether the text is one to eighteen digits.
fn is_fraction(text: &[u8]) -> bool
    ensures { result ≡ is_fraction_text text.now }
{
    are_digits(text) && (1 <= text.len() && text.len() <= 18)
}

/// Whether each byte is a digit.
fn are_digits(text: &[u8]) -> bool
    ensures { result ≡ list_all is_digit_byte text.now }
{
    text.iter().all(|byte| is_digit(*byte))
}

/// Whether the byte is one of `0` to `9`.
fn is_digit(byte: u8) -> bool
    ensures { result ≡ is_digit_byte byte }
{
    48 <= byte && byte <= 57
}

/// The units of a whole part with digits after the point.
fn with_fraction(whole: Option<u64>, digits: &[u8]) -> Option<u64>
    requires digits { is_fraction_text digits.now ≡ true }
    requires whole { IfSome whole (λ w. w ≤ one_in_units) }
    ensures { result ≡ with_fraction_of whole digits.now }
{
    match whole {
        Some(units) => at_most_one(units + fraction_units(digits)),
        None => None,
    }
}

/// A number that is at most one.
fn at_most_one(units: u64) -> Option<u64>
    ensures { result ≡ at_most_one_of units }
{
    if units <= ONE { Some(units) } else { None }
}

/// The units of digits after the point.
fn fraction_units(digits: &[u8]) -> u64
    requires digits { is_fraction_text digits.now ≡ true }
    ensures units { result ≡ number_of digits.now * 10 ^ (18 - length digits.now) }
    ensures small { result < one_in_units }
{
    let mut units = digits_value(digits);
    let mut place = digits.len();
    while place < 18 {
        units *= 10;
        place += 1;
    }
    units
}

/// The number that at most eighteen digits stand for.
fn digits_value(digits: &[u8]) -> u64
    requires digits { is_fraction_text digits.now ≡ true }
    ensures number { result ≡ number_of digits.now }
    ensures small { result < 10 ^ length digits.now }
{
    let mut number: u64 = 0;
    for digit in digits {
        number = number * 10 + u64::from(*digit - 48);
    }
    number
}
