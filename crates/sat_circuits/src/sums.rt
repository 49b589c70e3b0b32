//! Sums and differences of words, by a chain of full adders (a ripple-carry adder).
//!
//! [`add`], [`subtract`] and [`negate`] are the main functions, for words of at most 34 literals, each cut to a
//! width. A difference is the sum of the first word, the second with all literals negated, and 1. `difference` and
//! `negation` do the same at any width for which there is room.
ghost use Rattle.std.specs.Prelude.{◌≡◌, ◌+◌, ◌-◌, ◌*◌, ◌^◌, ◌<◌, ◌≤◌, IfOk, OnOk, OnErr, length, ◌+ℤ◌, ◌-ℤ◌, neg_ℤ};
ghost use Rattle.sat_clauses.specs.Models.{IsBelow};
ghost use Rattle.sat_circuits.specs.Meaning.{AllBelow, StopsWithin};
ghost use Rattle.sat_circuits.specs.Words.{IsWordOf, GivesCut, word_value};
ghost use Rattle.sat_circuits.specs.Sums.{full_adder, sum_gates, add_gates, subtract_gates, negate_gates};

use crate::gates::Gates;
use crate::word::{Word, fitted, opposites};
use base_values::{Items, OutOfMemory};
use sat_clauses::lit::Lit;
use std::alloc::Global;

/// The sum bit and the carry of three literals.
fn full_add(g: &mut Gates, x: Lit, y: Lit, carry: Lit) -> Result<(Lit, Lit), OutOfMemory>
    requires left { IsBelow g.old.free x }
    requires right { IsBelow g.old.free y }
    requires carry { IsBelow g.old.free carry }
    requires room { g.old.free + 5 < 2 ^ 31 }
    ensures exact { IfOk result (λ r. full_adder x y carry g.old ≡ (g.new, r)) }
    ensures err { OnErr result (StopsWithin g.old g.new (full_adder x y carry g.old).0) }
{
    let t = g.xor(x, y)?;
    let sum = g.xor(t, carry)?;
    let both = g.and(x, y)?;
    let passed = g.and(t, carry)?;
    let carry = g.or(both, passed)?;
    Ok((sum, carry))
}

/// The sum of two words of the same length, as long as they are.
pub(crate) fn sum(
    alloc: Global,
    g: &mut Gates,
    a: &Word,
    b: &Word,
    carry: Lit,
) -> Result<Word, OutOfMemory>
    requires same { length a.now ≡ length b.now }
    requires left { AllBelow g.old.free a.now }
    requires right { AllBelow g.old.free b.now }
    requires carry { IsBelow g.old.free carry }
    requires room { g.old.free + 5 * length a.now < 2 ^ 31 }
    ensures exact { IfOk result (λ w. sum_gates a.now b.now carry g.old ≡ (g.new, w)) }
    ensures err { OnErr result (StopsWithin g.old g.new (sum_gates a.now b.now carry g.old).0) }
{
    let mut sum = Items::new(alloc);
    let mut carry = carry;
    for i in 0..a.len() {
        let (bit, next) = full_add(g, *a.at(i), *b.at(i), carry)?;
        sum.push(bit)?;
        carry = next;
    }
    Ok(sum)
}

/// The sum of two words, cut to `width` bits.
pub fn add(
    alloc: Global,
    g: &mut Gates,
    a: &Word,
    b: &Word,
    width: u32,
) -> Result<Word, OutOfMemory>
    requires widths { (1 ≤ width) × (width ≤ 34) × (length a.now ≤ 34) × (length b.now ≤ 34) }
    requires left { IsWordOf g.old a.now }
    requires right { IsWordOf g.old b.now }
    requires room { g.old.free ≤ 2 ^ 31 - 20000 }
    ensures exact { IfOk result (λ w. add_gates a.now b.now width g.old ≡ (g.new, w)) }
    ensures value { IfOk result (λ w. GivesCut g.old g.new w width (λ v. word_value v a.now +ℤ word_value v b.now)) }
    ensures next { OnOk result (g.new.free ≡ g.old.free + 5 * width) }
    ensures err { OnErr result (StopsWithin g.old g.new (add_gates a.now b.now width g.old).0) }
{
    let carry = g.constant(false);
    let a = fitted(alloc, a, width)?;
    let b = fitted(alloc, b, width)?;
    sum(alloc, g, &a, &b, carry)
}

/// `subtract` at any width for which there is room.
pub(crate) fn difference(
    alloc: Global,
    g: &mut Gates,
    a: &Word,
    b: &Word,
    width: u32,
) -> Result<Word, OutOfMemory>
    requires least { 1 ≤ width }
    requires left { IsWordOf g.old a.now }
    requires right { IsWordOf g.old b.now }
    requires room { g.old.free + 5 * width < 2 ^ 31 }
    ensures exact { IfOk result (λ w. subtract_gates a.now b.now width g.old ≡ (g.new, w)) }
    ensures value { IfOk result (λ w. GivesCut g.old g.new w width (λ v. word_value v a.now -ℤ word_value v b.now)) }
    ensures next { OnOk result (g.new.free ≡ g.old.free + 5 * width) }
    ensures err { OnErr result (StopsWithin g.old g.new (subtract_gates a.now b.now width g.old).0) }
{
    let carry = g.constant(true);
    let a = fitted(alloc, a, width)?;
    let b = fitted(alloc, b, width)?;
    let b = opposites(alloc, &b)?;
    sum(alloc, g, &a, &b, carry)
}

/// The difference of two words, cut to `width` bits: the first, the negated second and 1.
pub fn subtract(
    alloc: Global,
    g: &mut Gates,
    a: &Word,
    b: &Word,
    width: u32,
) -> Result<Word, OutOfMemory>
    requires widths { (1 ≤ width) × (width ≤ 34) × (length a.now ≤ 34) × (length b.now ≤ 34) }
    requires left { IsWordOf g.old a.now }
    requires right { IsWordOf g.old b.now }
    requires room { g.old.free ≤ 2 ^ 31 - 20000 }
    ensures exact { IfOk result (λ w. subtract_gates a.now b.now width g.old ≡ (g.new, w)) }
    ensures value { IfOk result (λ w. GivesCut g.old g.new w width (λ v. word_value v a.now -ℤ word_value v b.now)) }
    ensures next { OnOk result (g.new.free ≡ g.old.free + 5 * width) }
    ensures err { OnErr result (StopsWithin g.old g.new (subtract_gates a.now b.now width g.old).0) }
{
    difference(alloc, g, a, b, width)
}

/// `negate` at any width for which there is room.
pub(crate) fn negation(
    alloc: Global,
    g: &mut Gates,
    a: &Word,
    width: u32,
) -> Result<Word, OutOfMemory>
    requires least { 1 ≤ width }
    requires left { IsWordOf g.old a.now }
    requires room { g.old.free + 5 * width < 2 ^ 31 }
    ensures exact { IfOk result (λ w. negate_gates a.now width g.old ≡ (g.new, w)) }
    ensures value { IfOk result (λ w. GivesCut g.old g.new w width (λ v. neg_ℤ (word_value v a.now))) }
    ensures next { OnOk result (g.new.free ≡ g.old.free + 5 * width) }
    ensures err { OnErr result (StopsWithin g.old g.new (negate_gates a.now width g.old).0) }
{
    let mut zero = Items::new(alloc);
    zero.push(g.constant(false))?;
    difference(alloc, g, &zero, a, width)
}

/// 0 minus the word, cut to `width` bits.
pub fn negate(alloc: Global, g: &mut Gates, a: &Word, width: u32) -> Result<Word, OutOfMemory>
    requires widths { (1 ≤ width) × (width ≤ 34) × (length a.now ≤ 34) }
    requires left { IsWordOf g.old a.now }
    requires room { g.old.free ≤ 2 ^ 31 - 20000 }
    ensures exact { IfOk result (λ w. negate_gates a.now width g.old ≡ (g.new, w)) }
    ensures value { IfOk result (λ w. GivesCut g.old g.new w width (λ v. neg_ℤ (word_value v a.now))) }
    ensures next { OnOk result (g.new.free ≡ g.old.free + 5 * width) }
    ensures err { OnErr result (StopsWithin g.old g.new (negate_gates a.now width g.old).0) }
{
    negation(alloc, g, a, width)
}
