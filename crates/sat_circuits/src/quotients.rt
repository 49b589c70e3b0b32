//! Quotients and remainders of words, rounded toward zero.
ghost use Rattle.std.specs.Prelude.{◌≡◌, ◌≢◌, ◌+◌, ◌-◌, ◌*◌, ◌^◌, ◌<◌, ◌≤◌, ◌∷◌, IfOk, OnOk, OnErr, length, max, pos, take, reverse};
ghost use Rattle.std.specs.Prelude.{int_div, int_rem, if◌then◌else◌};
ghost use Rattle.sat_clauses.specs.Models.{literal_value, IsBelow};
ghost use Rattle.sat_circuits.specs.Meaning.{AllBelow, Means, StopsWithin};
ghost use Rattle.sat_circuits.specs.Bits.{IsCutTo};
ghost use Rattle.sat_circuits.specs.Words.{AreSized, IsOfWidth, IsSized, IsWordOf, word_value};
ghost use Rattle.sat_circuits.specs.Quotients.{choose_gates, negate_where_gates, magnitude_gates, divide_bit, long_division_gates};
ghost use Rattle.sat_circuits.specs.Quotients.{magnitudes_gates, divide_gates, remainder_gates};

use crate::compare::is_less;
use crate::gates::Gates;
use crate::sums::{difference, negation};
use crate::word::{Word, falses, fitted, sign};
use base_values::{Items, OutOfMemory};
use sat_clauses::lit::Lit;
use std::alloc::Global;

/// The first word where `c` is true, and else the second: a mux for each pair of their literals.
pub fn choose(
    alloc: Global,
    g: &mut Gates,
    c: Lit,
    xs: &Word,
    ys: &Word,
) -> Result<Word, OutOfMemory>
    requires same { length xs.now ≡ length ys.now }
    requires choice { IsBelow g.old.free c }
    requires left { AllBelow g.old.free xs.now }
    requires right { AllBelow g.old.free ys.now }
    requires room { g.old.free + length xs.now < 2 ^ 31 }
    ensures exact { IfOk result (λ w. choose_gates c xs.now ys.now g.old ≡ (g.new, w)) }
    ensures value { IfOk result (λ w. Means g.old (g.new, w) (IsSized (length xs.now) (g.old.free + length xs.now)) (λ v u.
        word_value v u ≡ (if literal_value v c then word_value v xs.now else word_value v ys.now))) }
    ensures err { OnErr result (StopsWithin g.old g.new (choose_gates c xs.now ys.now g.old).0) }
{
    let mut chosen = Items::new(alloc);
    for i in 0..xs.len() {
        let bit = g.mux(c, *xs.at(i), *ys.at(i))?;
        chosen.push(bit)?;
    }
    Ok(chosen)
}

/// The word, negated where `c` is true.
fn negated_where(alloc: Global, g: &mut Gates, c: Lit, word: &Word) -> Result<Word, OutOfMemory>
    requires short { length word.now < 2 ^ 31 }
    requires choice { IsBelow g.old.free c }
    requires word { IsWordOf g.old word.now }
    requires room { g.old.free + 6 * length word.now < 2 ^ 31 }
    ensures exact { IfOk result (λ w. negate_where_gates c word.now g.old ≡ (g.new, w)) }
    ensures shape { IfOk result (IsSized (length word.now) (g.old.free + 6 * length word.now) g.new) }
    ensures err { OnErr result (StopsWithin g.old g.new (negate_where_gates c word.now g.old).0) }
{
    let negated = negation(alloc, g, word, word.len() as u32)?;
    let chosen = choose(alloc, g, c, &negated, word)?;
    Ok(chosen)
}

/// The word in which `bit` is below the literals of `rest`, of which the last is left out.
fn shifted_in(alloc: Global, bit: Lit, rest: &Word) -> Result<Word, OutOfMemory>
    requires { 0 < length rest.now }
    ensures { IfOk result (λ w. w ≡ take (length rest.now) (bit ∷ rest.now)) }
{
    let mut shifted = Items::new(alloc);
    shifted.push(bit)?;
    shifted.append(&rest.as_slice()[..rest.len() - 1])?;
    Ok(shifted)
}

/// The literals in the opposite order.
fn reversed(word: Word) -> Word
    ensures { result ≡ reverse word }
{
    let mut lits = word.into_vec();
    lits.reverse();
    Items::from_vec(lits)
}

/// One bit of a long division: the quotient's bit, and the remainder.
fn divided_bit(
    alloc: Global,
    g: &mut Gates,
    bit: Lit,
    rest: &Word,
    divisor: &Word,
) -> Result<(Lit, Word), OutOfMemory>
    requires same { length rest.now ≡ length divisor.now }
    requires widths { (0 < length divisor.now) × (length divisor.now < 2 ^ 30) }
    requires bit { IsBelow g.old.free bit }
    requires rest { AllBelow g.old.free rest.now }
    requires divisor { AllBelow g.old.free divisor.now }
    requires room { g.old.free + (11 * length divisor.now + 5) < 2 ^ 31 }
    ensures exact { IfOk result (λ x. divide_bit divisor.now bit rest.now g.old ≡ (g.new, x)) }
    ensures err { OnErr result (StopsWithin g.old g.new (divide_bit divisor.now bit rest.now g.old).0) }
{
    let shifted = shifted_in(alloc, bit, rest)?;
    let less = is_less(alloc, g, &shifted, divisor)?;
    let difference = difference(alloc, g, &shifted, divisor, divisor.len() as u32)?;
    let rest = choose(alloc, g, less.neg(), &difference, &shifted)?;
    Ok((less.neg(), rest))
}

/// The quotient and the remainder of two words of one length, which are 0 or more.
fn long_division(
    alloc: Global,
    g: &mut Gates,
    dividend: Word,
    divisor: &Word,
) -> Result<(Word, Word), OutOfMemory>
    requires same { length dividend ≡ length divisor.now }
    requires widths { (2 ≤ length divisor.now) × (length divisor.now ≤ 35) }
    requires left { AllBelow g.old.free dividend }
    requires right { AllBelow g.old.free divisor.now }
    requires room { g.old.free + (11 * length divisor.now + 5) * length divisor.now < 2 ^ 31 }
    ensures exact { IfOk result (λ r. long_division_gates dividend divisor.now g.old ≡ (g.new, r)) }
    ensures shape { IfOk result (AreSized (length divisor.now)
        (g.old.free + (11 * length divisor.now + 5) * length divisor.now) g.new) }
    ensures err { OnErr result (StopsWithin g.old g.new (long_division_gates dividend divisor.now g.old).0) }
{
    // What a constant means is what makes the comparisons right.
    let _ = g.constant(true);
    let bits = reversed(dividend);
    let mut quotient = Items::new(alloc);
    let mut rest = falses(alloc, g, divisor.len())?;
    for i in 0..bits.len() {
        let (bit, next) = divided_bit(alloc, g, *bits.at(i), &rest, divisor)?;
        quotient.push(bit)?;
        rest = next;
    }
    let quotient = reversed(quotient);
    Ok((quotient, rest))
}

/// The word without its sign, at `width` bits.
fn magnitude(alloc: Global, g: &mut Gates, word: &Word, width: u32) -> Result<Word, OutOfMemory>
    requires widths { (1 ≤ width) × (width ≤ 35) }
    requires least { 2 ≤ g.old.free }
    requires word { IsWordOf g.old word.now }
    requires room { g.old.free + 6 * width < 2 ^ 31 }
    ensures exact { IfOk result (λ w. magnitude_gates word.now width g.old ≡ (g.new, w)) }
    ensures shape { IfOk result (IsSized width (g.old.free + 6 * width) g.new) }
    ensures err { OnErr result (StopsWithin g.old g.new (magnitude_gates word.now width g.old).0) }
{
    let wide = fitted(alloc, word, width)?;
    let signed = negated_where(alloc, g, sign(word), &wide)?;
    Ok(signed)
}

/// The quotient and the remainder of two words without their signs, at `width` bits.
fn magnitudes_divided(
    alloc: Global,
    g: &mut Gates,
    a: &Word,
    b: &Word,
    width: u32,
) -> Result<(Word, Word), OutOfMemory>
    requires widths { (2 ≤ width) × (width ≤ 35) }
    requires least { 2 ≤ g.old.free }
    requires left { IsWordOf g.old a.now }
    requires right { IsWordOf g.old b.now }
    requires room { g.old.free ≤ 2 ^ 31 - 20000 }
    ensures exact { IfOk result (λ r. magnitudes_gates a.now b.now width g.old ≡ (g.new, r)) }
    ensures shape { IfOk result (AreSized width (g.old.free + (12 * width + (11 * width + 5) * width)) g.new) }
    ensures err { OnErr result (StopsWithin g.old g.new (magnitudes_gates a.now b.now width g.old).0) }
{
    let dividend = magnitude(alloc, g, a, width)?;
    let divisor = magnitude(alloc, g, b, width)?;
    let (quotient, rest) = long_division(alloc, g, dividend, &divisor)?;
    Ok((quotient, rest))
}

/// The quotient of two words, rounded toward zero and cut to `width` bits. Where the divisor is 0,
/// nothing is said of its value. It is the quotient of the words without their signs, negated where
/// the signs differ.
pub fn divide(
    alloc: Global,
    g: &mut Gates,
    a: &Word,
    b: &Word,
    width: u32,
) -> Result<Word, OutOfMemory>
    requires widths { (1 ≤ width) × (width ≤ 34) × (length a.now ≤ 34) × (length b.now ≤ 34) }
    requires left { IsWordOf g.old a.now }
    requires right { IsWordOf g.old b.now }
    requires room { g.old.free ≤ 2 ^ 31 - 20000 }
    ensures exact { IfOk result (λ w. divide_gates a.now b.now width g.old ≡ (g.new, w)) }
    ensures value { IfOk result (λ w. Means g.old (g.new, w) (IsOfWidth width) (λ v x. word_value v b.now ≢ pos 0 →
        IsCutTo width (int_div (word_value v a.now) (word_value v b.now)) (word_value v x))) }
    ensures next { OnOk result (g.new.free ≤ g.old.free + 20000) }
    ensures err { OnErr result (StopsWithin g.old g.new (divide_gates a.now b.now width g.old).0) }
{
    // What a constant means is what makes the parts right.
    let _ = g.constant(true);
    let wide = a.len().max(b.len()) as u32 + 1;
    let (quotient, _rest) = magnitudes_divided(alloc, g, a, b, wide)?;
    let differ = g.xor(sign(a), sign(b))?;
    let signed = negated_where(alloc, g, differ, &quotient)?;
    let cut = fitted(alloc, &signed, width)?;
    Ok(cut)
}

/// The remainder of two words, with the sign of the first, cut to `width` bits. Where the divisor is 0,
/// nothing is said of its value.
pub fn remainder(
    alloc: Global,
    g: &mut Gates,
    a: &Word,
    b: &Word,
    width: u32,
) -> Result<Word, OutOfMemory>
    requires widths { (1 ≤ width) × (width ≤ 34) × (length a.now ≤ 34) × (length b.now ≤ 34) }
    requires left { IsWordOf g.old a.now }
    requires right { IsWordOf g.old b.now }
    requires room { g.old.free ≤ 2 ^ 31 - 20000 }
    ensures exact { IfOk result (λ w. remainder_gates a.now b.now width g.old ≡ (g.new, w)) }
    ensures value { IfOk result (λ w. Means g.old (g.new, w) (IsOfWidth width) (λ v x. word_value v b.now ≢ pos 0 →
        IsCutTo width (int_rem (word_value v a.now) (word_value v b.now)) (word_value v x))) }
    ensures next { OnOk result (g.new.free ≤ g.old.free + 20000) }
    ensures err { OnErr result (StopsWithin g.old g.new (remainder_gates a.now b.now width g.old).0) }
{
    // What a constant means is what makes the parts right.
    let _ = g.constant(true);
    let wide = a.len().max(b.len()) as u32 + 1;
    let (_quotient, rest) = magnitudes_divided(alloc, g, a, b, wide)?;
    let signed = negated_where(alloc, g, sign(a), &rest)?;
    let cut = fitted(alloc, &signed, width)?;
    Ok(cut)
}
