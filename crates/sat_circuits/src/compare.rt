//! Comparisons of words: whether the one number is less than the other, or the same.
//!
//! [`less`] and [`equal`] are the main functions, for words of at most 34 literals, each answering one literal. The
//! first is the sign of the difference at one bit more, the second goes bit by bit at the width of the wider word.
ghost use Rattle.std.specs.Prelude.{◌≡◌, ◌+◌, ◌-◌, ◌*◌, ◌^◌, ◌<◌, ◌≤◌, max, IfOk, OnOk, OnErr, length, int_lt, zip};
ghost use Rattle.std.specs.Ordering.{int_eq};
ghost use Rattle.sat_clauses.specs.Models.{IsBelow};
ghost use Rattle.sat_circuits.specs.Circuit.{fold_gates};
ghost use Rattle.sat_circuits.specs.Meaning.{AllBelow, GivesBool, StopsWithin};
ghost use Rattle.sat_circuits.specs.Words.{IsWordOf, word_value};
ghost use Rattle.sat_circuits.specs.Sums.{less_gates, equal_step, equal_gates};

use crate::gates::Gates;
use crate::sums::difference;
use crate::word::{Word, fitted, sign};
use base_values::OutOfMemory;
use sat_clauses::lit::Lit;
use std::alloc::Global;

/// `less` at any width for which there is room.
pub(crate) fn is_less(alloc: Global, g: &mut Gates, a: &Word, b: &Word) -> Result<Lit, OutOfMemory>
    requires short { (length a.now < 2 ^ 31) × (length b.now < 2 ^ 31) }
    requires left { IsWordOf g.old a.now }
    requires right { IsWordOf g.old b.now }
    requires room { g.old.free + 5 * (max (length a.now) (length b.now) + 1) < 2 ^ 31 }
    ensures exact { IfOk result (λ l. less_gates a.now b.now g.old ≡ (g.new, l)) }
    ensures value { IfOk result (λ l. GivesBool g.old g.new l (λ v. int_lt (word_value v a.now) (word_value v b.now))) }
    ensures next { OnOk result (g.new.free ≡ g.old.free + 5 * (max (length a.now) (length b.now) + 1)) }
    ensures err { OnErr result (StopsWithin g.old g.new (less_gates a.now b.now g.old).0) }
{
    // What a constant means is what makes the difference right.
    let _ = g.constant(true);
    let width = a.len().max(b.len()) as u32 + 1;
    let difference = difference(alloc, g, a, b, width)?;
    Ok(sign(&difference))
}

/// Whether the first word is less than the second: the sign of their difference, at one bit more than
/// the wider of them has.
pub fn less(alloc: Global, g: &mut Gates, a: &Word, b: &Word) -> Result<Lit, OutOfMemory>
    requires widths { (length a.now ≤ 34) × (length b.now ≤ 34) }
    requires left { IsWordOf g.old a.now }
    requires right { IsWordOf g.old b.now }
    requires room { g.old.free ≤ 2 ^ 31 - 20000 }
    ensures exact { IfOk result (λ l. less_gates a.now b.now g.old ≡ (g.new, l)) }
    ensures value { IfOk result (λ l. GivesBool g.old g.new l (λ v. int_lt (word_value v a.now) (word_value v b.now))) }
    ensures next { OnOk result (g.new.free ≡ g.old.free + 5 * (max (length a.now) (length b.now) + 1)) }
    ensures err { OnErr result (StopsWithin g.old g.new (less_gates a.now b.now g.old).0) }
{
    is_less(alloc, g, a, b)
}

/// Whether `truth` is true and all literals of two words of one length agree.
fn agreement(g: &mut Gates, a: &Word, b: &Word, truth: Lit) -> Result<Lit, OutOfMemory>
    requires same { length a.now ≡ length b.now }
    requires left { AllBelow g.old.free a.now }
    requires right { AllBelow g.old.free b.now }
    requires truth { IsBelow g.old.free truth }
    requires room { g.old.free + 2 * length a.now < 2 ^ 31 }
    ensures exact { IfOk result (λ l. fold_gates equal_step (zip a.now b.now) truth g.old ≡ (g.new, l)) }
    ensures err { OnErr result (StopsWithin g.old g.new (fold_gates equal_step (zip a.now b.now) truth g.old).0) }
{
    let mut agree = truth;
    for i in 0..a.len() {
        let differ = g.xor(*a.at(i), *b.at(i))?;
        agree = g.and(agree, differ.neg())?;
    }
    Ok(agree)
}

/// Whether two words are the same number, at the width of the wider one.
pub fn equal(alloc: Global, g: &mut Gates, a: &Word, b: &Word) -> Result<Lit, OutOfMemory>
    requires widths { (length a.now ≤ 34) × (length b.now ≤ 34) }
    requires left { IsWordOf g.old a.now }
    requires right { IsWordOf g.old b.now }
    requires room { g.old.free ≤ 2 ^ 31 - 20000 }
    ensures exact { IfOk result (λ l. equal_gates a.now b.now g.old ≡ (g.new, l)) }
    ensures value { IfOk result (λ l. GivesBool g.old g.new l (λ v. int_eq (word_value v a.now) (word_value v b.now))) }
    ensures next { OnOk result (g.new.free ≡ g.old.free + 2 * max (length a.now) (length b.now)) }
    ensures err { OnErr result (StopsWithin g.old g.new (equal_gates a.now b.now g.old).0) }
{
    let width = a.len().max(b.len()) as u32;
    let truth = g.constant(true);
    let a = fitted(alloc, a, width)?;
    let b = fitted(alloc, b, width)?;
    agreement(g, &a, &b, truth)
}
