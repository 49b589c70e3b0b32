//! How many bits stand for a variable's value ([`declared_bits`]). The bits of state and frozen variables are added up
//! for the limit of a model, and the encoding of a model gives each variable as many.
ghost use Rattle.std.specs.Prelude.{◌≡◌, ◌≤◌, None, map};
ghost use Rattle.smv_language.specs.ProgramTree.{declared_tree};
ghost use Rattle.smv_type_laws.specs.Costs.{digits_of, digits_above, width_of, width_in, member_number, declared_width};
ghost use Rattle.smv_types.specs.Types.{widened, spread};

use crate::numbers::TextNumbers;
use smv_language::{Declared, Member};
use std::marker::Model;

/// The least and the greatest of some numbers.
#[derive(Clone, Copy)]
pub struct Ends {
    pub lo: i64,
    pub hi: i64,
}

impl Model for Ends {
    ghost use Rattle.smv_type_laws.specs.Intervals.{Interval};

    ghost Value = { Interval };

    ghost view = { λ e. record { lo = e.lo; hi = e.hi } };

    ghost inverse = { λ e. record { lo = e.lo; hi = e.hi } };
}

/// The number of bits of a declared type. A truth value has 1. Numbers that are never below 0 have as many
/// as the greatest has binary digits, and at least 1; others have the least width at which both ends are
/// numbers in two's complement. A symbol is its number, and an instance has none. Takes no memory.
#[tactic(auto, using(crate::proofs::TypeLaws::hull_spread))]
pub(crate) fn declared_bits(numbers: &TextNumbers<'_>, declared: &Declared) -> u32
    ensures { result ≡ declared_width numbers.now.texts.now (declared_tree declared.now) }
{
    match declared {
        Declared::Boolean => 1,
        Declared::Instance(_, _) => 0,
        Declared::Range(lo, hi) => width(*lo, *hi),
        Declared::Members(members) => ends_width(ends_of(numbers, members.as_slice())),
    }
}

/// The least and the greatest number of some members.
fn ends_of(numbers: &TextNumbers<'_>, members: &[Member]) -> Option<Ends>
    ensures { result ≡ spread None (map (member_number numbers.now.texts.now) members.now) }
{
    let mut ends = None;
    for member in members {
        ends = Some(widened(ends, numbers.member(member)));
    }
    ends
}

/// The ends with one more number.
pub fn widened(ends: Option<Ends>, n: i64) -> Ends
    ensures { result ≡ widened ends n }
{
    match ends {
        Some(ends) => Ends {
            lo: ends.lo.min(n),
            hi: ends.hi.max(n),
        },
        None => Ends { lo: n, hi: n },
    }
}

/// The bits of the numbers between two ends, and none where there are no numbers.
pub fn ends_width(ends: Option<Ends>) -> u32
    ensures { result ≡ width_in ends }
{
    match ends {
        Some(ends) => width(ends.lo, ends.hi),
        None => 0,
    }
}

/// The bits of the numbers from `lo` to `hi`.
pub fn width(lo: i64, hi: i64) -> u32
    ensures { result ≡ width_of (record { lo = lo; hi = hi }) }
{
    if lo >= 0 {
        digits_above(hi).max(1)
    } else {
        digits((-1 - lo) as u64).max(digits_above(hi)) + 1
    }
}

/// The number of binary digits of a number, which is 0 where it is not above 0.
fn digits_above(n: i64) -> u32
    ensures value { result ≡ digits_above n }
    ensures few { result ≤ 64 }
{
    if n < 0 { 0 } else { digits(n as u64) }
}

/// The number of binary digits, which is 0 for 0.
#[tactic(auto, using(crate::proofs::DigitLaws::digits_at, crate::proofs::DigitLaws::digits_none))]
pub fn digits(n: u64) -> u32
    ensures value { result ≡ digits_of n }
    ensures few { result ≤ 64 }
{
    let mut left = n;
    let mut count = 0;
    for _place in 0..64u32 {
        if left > 0 {
            left /= 2;
            count += 1;
        }
    }
    count
}
