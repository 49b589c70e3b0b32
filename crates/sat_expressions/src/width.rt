//! How many bits words have: those of numbers in an interval, of symbols, and of whatever an expression's values are.
//!
//! [`sort_width`] is the main function, and [`word_width`] that of an interval: the digits of its wider end, and a sign.
ghost use Rattle.std.specs.Prelude.{◌≡◌, ◌≤◌, ◌<◌, ◌^◌};
ghost use Rattle.sat_encoding_laws.specs.Widths.{digits_beside_sign, word_width};
ghost use Rattle.sat_expressions.specs.Sorts.{symbols_width, sort_width};

use smv_types::{Class, Sort, digits};

/// The bits of a word that holds every number from `lo` to `hi`: the digits of its ends, and a sign.
pub fn word_width(lo: i64, hi: i64) -> u32
    ensures value { result ≡ word_width (record { lo = lo; hi = hi }) }
    ensures least { 1 ≤ result }
{
    digits_beside_sign(lo).max(digits_beside_sign(hi)) + 1
}

/// The digits of a number, where those of one below 0 are all turned over.
fn digits_beside_sign(n: i64) -> u32
    ensures value { result ≡ digits_beside_sign n }
    ensures few { result ≤ 64 }
{
    if n < 0 {
        digits((-1 - n) as u64)
    } else {
        digits(n as u64)
    }
}

/// The bits of the word of any of so many symbols, which are numbered from 0.
pub fn symbol_width(symbols: usize) -> u32
    ensures value { result ≡ symbols_width symbols }
    ensures least { 1 ≤ result }
{
    let last = if symbols > 0 { symbols - 1 } else { 0 };
    digits(last as u64).max(digits(0)) + 1
}

/// The bits of the word of an expression with such values, where a symbol has `symbols` bits.
pub fn sort_width(symbols: u32, sort: Sort) -> u32
    requires { 1 ≤ symbols }
    ensures value { result ≡ sort_width symbols sort }
    ensures least { 1 ≤ result }
{
    match (sort.class, sort.interval) {
        (Class::Number, Some(interval)) => word_width(interval.lo(), interval.hi()),
        _ => symbols,
    }
}
