//! Intervals of numbers within 32 bits, and what operations make of them. Each answers the least interval that has all
//! results, or None where one of these passes 32 bits: `plus`, `times`, `over` (which truncates toward zero), `remainder`
//! (which has the sign of what is divided), and so on. No computation here passes 64 bits.
ghost use Rattle.std.specs.Prelude.{◌≡◌, ◌≢◌, ◌≤ℤ◌, ◌*ℤ◌, pos, neg_ℤ, false, int_div, int_lt, if◌then◌else◌};
ghost use Rattle.std.specs.Int.{int_min, int_max};
ghost use Rattle.smv_type_laws.specs.Intervals.{just, hull, sum_of, difference_of, negative_of, product_of, quotient_of, remainder_of};
ghost use Rattle.smv_type_laws.specs.Intervals.{most_left, has_zero, fits_number};
ghost use Rattle.smv_types.specs.NumberAnswers.{fitting, IsSmall};

use base_values::limits::{GREATEST_NUMBER, LEAST_NUMBER};
use std::marker::Model;

/// The numbers from `lo` to `hi`, both included, which stand in this order and within 32 bits.
#[derive(Clone, Copy)]
pub struct Interval {
    lo: i64,
    hi: i64,
}

impl Model for Interval {
    ghost use Rattle.std.specs.Prelude.{◌≤ℤ◌};
    ghost use Rattle.base_values.specs.declared.limits.TheConstants.{LEAST_NUMBER, GREATEST_NUMBER};
    ghost use Rattle.smv_type_laws.specs.Intervals.{Interval as AnInterval};

    ghost Value = { AnInterval };

    ghost view = { λ i. record { lo = i.lo; hi = i.hi } };

    ghost invariant = { λ i. (LEAST_NUMBER ≤ℤ i.lo) × (i.lo ≤ℤ i.hi) × (i.hi ≤ℤ GREATEST_NUMBER) };

    ghost inverse = { λ i. record { lo = i.lo; hi = i.hi } };
}

/// Whether a number is within 32 bits.
pub(crate) fn is_small(n: i64) -> bool
    ensures { result ≡ fits_number n }
{
    LEAST_NUMBER <= n && n <= GREATEST_NUMBER
}

/// The interval of two ends, or None where one of them passes 32 bits.
pub(crate) fn between(lo: i64, hi: i64) -> Option<Interval>
    requires { lo ≤ℤ hi }
    ensures { result ≡ fitting (record { lo = lo; hi = hi }) }
{
    if is_small(lo) && is_small(hi) {
        Some(Interval { lo, hi })
    } else {
        None
    }
}

/// The least of four numbers.
fn least(a: i64, b: i64, c: i64, d: i64) -> i64
    ensures value { result ≡ int_min (int_min a b) (int_min c d) }
    ensures bound { result ≤ℤ a }
{
    a.min(b).min(c.min(d))
}

/// The greatest of four numbers.
fn greatest(a: i64, b: i64, c: i64, d: i64) -> i64
    ensures value { result ≡ int_max (int_max a b) (int_max c d) }
    ensures bound { a ≤ℤ result }
{
    a.max(b).max(c.max(d))
}

/// The least interval that has these four numbers, or None where one of them passes 32 bits.
fn of_four(a: i64, b: i64, c: i64, d: i64) -> Option<Interval>
    ensures { result ≡ fitting (hull (hull (just a) (just b)) (hull (just c) (just d))) }
{
    between(least(a, b, c, d), greatest(a, b, c, d))
}

/// The product of two numbers within 32 bits.
fn product(a: i64, b: i64) -> i64
    requires a { IsSmall a }
    requires b { IsSmall b }
    ensures { result ≡ a *ℤ b }
{
    a * b
}

/// The quotient of two numbers within 32 bits, which truncates toward zero.
fn quotient(a: i64, b: i64) -> i64
    requires a { IsSmall a }
    requires b { IsSmall b }
    requires divisor { b ≢ pos 0 }
    ensures { result ≡ int_div a b }
{
    a / b
}

/// The least remainder of numbers from `lo` on, where no remainder is of a greater size than `most`.
fn remainder_lo(lo: i64, most: i64) -> i64
    requires { (pos 0 ≤ℤ most) × (most ≤ℤ GREATEST_NUMBER) }
    ensures value { result ≡ (if int_lt lo (pos 0) then int_max lo (neg_ℤ most) else pos 0) }
    ensures bound { result ≤ℤ pos 0 }
{
    if lo < 0 { lo.max(-most) } else { 0 }
}

/// The greatest remainder of numbers up to `hi`, where no remainder is of a greater size than `most`.
fn remainder_hi(hi: i64, most: i64) -> i64
    requires { pos 0 ≤ℤ most }
    ensures value { result ≡ (if int_lt (pos 0) hi then int_min hi most else pos 0) }
    ensures bound { pos 0 ≤ℤ result }
{
    if 0 < hi { hi.min(most) } else { 0 }
}

impl Interval {
    /// The least number.
    pub fn lo(self) -> i64
        ensures value { result ≡ self.lo }
        ensures small { IsSmall result }
    {
        self.lo
    }

    /// The greatest number.
    pub fn hi(self) -> i64
        ensures value { result ≡ self.hi }
        ensures small { IsSmall result }
    {
        self.hi
    }

    /// The least interval that has both.
    pub(crate) fn hull(self, other: Interval) -> Interval
        ensures { result ≡ hull self other }
    {
        Interval {
            lo: self.lo.min(other.lo),
            hi: self.hi.max(other.hi),
        }
    }

    /// The numbers with the other sign.
    pub(crate) fn negated(self) -> Option<Interval>
        ensures { result ≡ fitting (negative_of self) }
    {
        between(0 - self.hi, 0 - self.lo)
    }

    /// The sums.
    pub(crate) fn plus(self, other: Interval) -> Option<Interval>
        ensures { result ≡ fitting (sum_of self other) }
    {
        between(self.lo + other.lo, self.hi + other.hi)
    }

    /// The differences.
    pub(crate) fn minus(self, other: Interval) -> Option<Interval>
        ensures { result ≡ fitting (difference_of self other) }
    {
        between(self.lo - other.hi, self.hi - other.lo)
    }

    /// The least interval that has the products, which is that of the products of the ends.
    pub(crate) fn times(self, other: Interval) -> Option<Interval>
        ensures { result ≡ fitting (product_of self other) }
    {
        of_four(
            product(self.lo, other.lo),
            product(self.lo, other.hi),
            product(self.hi, other.lo),
            product(self.hi, other.hi),
        )
    }

    /// Whether 0 is one of the numbers.
    pub(crate) fn has_zero(self) -> bool
        ensures { result ≡ has_zero self }
    {
        self.lo <= 0 && 0 <= self.hi
    }

    /// The least interval that has the four quotients of the ends, which truncate toward zero.
    pub(crate) fn over(self, divisor: Interval) -> Option<Interval>
        requires { has_zero divisor ≡ false }
        ensures { result ≡ fitting (quotient_of self divisor) }
    {
        of_four(
            quotient(self.lo, divisor.lo),
            quotient(self.lo, divisor.hi),
            quotient(self.hi, divisor.lo),
            quotient(self.hi, divisor.hi),
        )
    }

    /// An interval of the remainders: each has the sign of the dividend, is no larger than it, and smaller
    /// than the divisor.
    pub(crate) fn remainder(self, divisor: Interval) -> Option<Interval>
        requires { has_zero divisor ≡ false }
        ensures { result ≡ fitting (remainder_of self divisor) }
    {
        let most = divisor.most_left();
        between(remainder_lo(self.lo, most), remainder_hi(self.hi, most))
    }

    /// The greatest size of an end, less 1.
    fn most_left(self) -> i64
        requires { has_zero self ≡ false }
        ensures value { result ≡ most_left self }
        ensures least { pos 0 ≤ℤ result }
        ensures most { result ≤ℤ GREATEST_NUMBER }
    {
        self.lo.abs().max(self.hi.abs()) - 1
    }
}
