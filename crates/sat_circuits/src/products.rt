//! Products of words by long multiplication.
//!
//! [`multiply`] is the main function, for words of at most 34 literals: the product, cut to a width. It adds up one
//! row for each bit of the second word: the first word, so many places up, where the bit is true.
ghost use Rattle.std.specs.Prelude.{◌≡◌, ◌+◌, ◌*◌, ◌-◌, ◌^◌, ◌<◌, ◌≤◌, IfOk, OnOk, OnErr, length, ◌*ℤ◌};
ghost use Rattle.sat_clauses.specs.Models.{IsBelow};
ghost use Rattle.sat_circuits.specs.Meaning.{AllBelow, StopsWithin};
ghost use Rattle.sat_circuits.specs.Words.{GivesCut, IsWordOf, word_value};
ghost use Rattle.sat_circuits.specs.Products.{multiply_gates, product_gates, row_gates};

use crate::gates::Gates;
use crate::sums::sum;
use crate::word::{Word, falses, fitted};
use base_values::OutOfMemory;
use sat_clauses::lit::Lit;
use std::alloc::Global;

/// The lowest literals of `a`, `shift` places up, where `b` is true.
fn shifted_row(
    alloc: Global,
    g: &mut Gates,
    b: Lit,
    a: &Word,
    shift: usize,
) -> Result<Word, OutOfMemory>
    requires within { shift ≤ length a.now }
    requires left { IsBelow g.old.free b }
    requires right { AllBelow g.old.free a.now }
    requires room { g.old.free + length a.now < 2 ^ 31 }
    ensures exact { IfOk result (λ w. row_gates b shift a.now g.old ≡ (g.new, w)) }
    ensures err { OnErr result (StopsWithin g.old g.new (row_gates b shift a.now g.old).0) }
{
    let mut row = falses(alloc, g, shift)?;
    for i in 0..a.len() - shift {
        let bit = g.and(b, *a.at(i))?;
        row.push(bit)?;
    }
    Ok(row)
}

/// The product of two words of one length, cut to it: the sum of the rows.
fn product(alloc: Global, g: &mut Gates, a: &Word, b: &Word) -> Result<Word, OutOfMemory>
    requires same { length a.now ≡ length b.now }
    requires left { AllBelow g.old.free a.now }
    requires right { AllBelow g.old.free b.now }
    requires room { g.old.free + 6 * length a.now * length a.now < 2 ^ 31 }
    ensures exact { IfOk result (λ w. product_gates a.now b.now g.old ≡ (g.new, w)) }
    ensures err { OnErr result (StopsWithin g.old g.new (product_gates a.now b.now g.old).0) }
{
    let off = g.constant(false);
    let mut product = falses(alloc, g, a.len())?;
    for i in 0..b.len() {
        let row = shifted_row(alloc, g, *b.at(i), a, i)?;
        product = sum(alloc, g, &product, &row, off)?;
    }
    Ok(product)
}

/// The product of two words, cut to `width` bits.
pub fn multiply(
    alloc: Global,
    g: &mut Gates,
    a: &Word,
    b: &Word,
    width: u32,
) -> Result<Word, OutOfMemory>
    requires widths { (1 ≤ width) × (width ≤ 34) × (length a.now ≤ 34) × (length b.now ≤ 34) }
    requires left { IsWordOf g.old a.now }
    requires right { IsWordOf g.old b.now }
    requires room { g.old.free ≤ 2 ^ 31 - 20000 }
    ensures exact { IfOk result (λ w. multiply_gates a.now b.now width g.old ≡ (g.new, w)) }
    ensures value { IfOk result (λ w. GivesCut g.old g.new w width (λ v. word_value v a.now *ℤ word_value v b.now)) }
    ensures next { OnOk result (g.new.free ≤ g.old.free + 6 * width * width) }
    ensures err { OnErr result (StopsWithin g.old g.new (multiply_gates a.now b.now width g.old).0) }
{
    // What a constant means is what makes the product right.
    let _ = g.constant(false);
    let a = fitted(alloc, a, width)?;
    let b = fitted(alloc, b, width)?;
    product(alloc, g, &a, &b)
}
